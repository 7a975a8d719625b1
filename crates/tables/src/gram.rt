// The products of the columns of a matrix's rows, and the variations of Ledoit and Wolf (covariance.rs, `ledoit_wolf`).
ghost use Rattle.std.specs.Prelude.{◌≡◌, ◌*◌, length};
ghost use Rattle.matrix.specs.Matrix.{at, rows};
ghost use Rattle.matrix.specs.Inner.{Symmetric};
ghost use Rattle.rules.specs.Sample as Sample;
ghost use Rattle.rules.specs.LedoitWolf as LedoitWolf;
ghost use Rattle.tables.specs.Rows.{matrix_of};

use crate::returns::Rows;
use crate::tables::Term;
use crate::{tables, vectors};

// The products of the columns, summed up.
pub fn gram(z: &Rows, out: &mut [f64])
    requires { length out.old ≡ z.now.returns.assets * z.now.returns.assets }
    ensures { out.new ≡ rows z.now.returns.assets z.now.returns.assets (Sample.gram z.now.returns.periods (matrix_of z.now)) }
{
    let none = [0.0; 0];
    tables::sum(Term::Product, z, &none, out);
    tables::mirror(z.returns.assets, out);
}

// π, from the second moments s.
pub fn variation(z: &Rows, s: &[f64], out: &mut [f64])
    requires { (length s.now ≡ z.now.returns.assets * z.now.returns.assets) × Symmetric z.now.returns.assets s.now × (length out.old ≡ z.now.returns.assets * z.now.returns.assets) }
    ensures { out.new ≡ rows z.now.returns.assets z.now.returns.assets (LedoitWolf.variation z.now.returns.periods (matrix_of z.now) (at s.now z.now.returns.assets)) }
{
    tables::sum(Term::Variation, z, s, out);
    tables::mirror(z.returns.assets, out);
    vectors::divide(std::num::nearest_u64_to_f64(z.returns.periods as u64), out);
}

// θ, from the second moments s.
pub fn covariation(z: &Rows, s: &[f64], out: &mut [f64])
    requires { (length s.now ≡ z.now.returns.assets * z.now.returns.assets) × (length out.old ≡ z.now.returns.assets * z.now.returns.assets) }
    ensures { out.new ≡ rows z.now.returns.assets z.now.returns.assets (LedoitWolf.covariation z.now.returns.periods (matrix_of z.now) (at s.now z.now.returns.assets)) }
{
    tables::sum(Term::Covariation, z, s, out);
    vectors::divide(std::num::nearest_u64_to_f64(z.returns.periods as u64), out);
}
