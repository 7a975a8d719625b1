// Returns, and the rows of numbers that the sums over their periods are formed of.
ghost use Rattle.std.specs.Prelude.{◌≡◌, ◌<◌, length, take};
ghost use Rattle.leaves.specs.Loops.{tab, nth};
ghost use Rattle.rules.specs.Shapes.{Shaped};

use crate::rows::{Row, numbers};

// Returns whose shape and length pass: those of all assets in the first period, then those in the second, and so on.
#[derive(Clone, Copy)]
pub struct Returns<'a> {
    pub numbers: &'a [f64],
    pub assets: usize,
    pub periods: usize,
    pub ghost shaped: { Shaped (length numbers.now) assets periods },
}

// What the rows of the periods are formed of: the returns, two factors of a unit for each asset or nothing, a center for each asset, and a weight
// for each period or nothing.
#[derive(Clone, Copy)]
pub struct Rows<'a> {
    pub row: Row,
    pub returns: Returns<'a>,
    pub units: &'a [f64],
    pub centers: &'a [f64],
    pub weights: &'a [f64],
    pub ghost centered: { length centers.now ≡ returns.assets },
}

// Period t's weight; NaN where there is none.
fn weight(weights: &[f64], t: usize) -> f64
    ensures { result ≡ nth weights.now t }
{
    match weights.get(t) {
        Some(w) => *w,
        None => f64::NAN,
    }
}

impl<'a> Rows<'a> {
    ghost use Rattle.tables.specs.Rows.{matrix_of};

    // The row of period t, at the beginning of `out`.
    pub(crate) fn form(&self, t: usize, out: &mut [f64; matrix::MAX_SIDE])
        requires { t < self.now.returns.periods }
        ensures { take self.now.returns.assets out.new ≡ tab self.now.returns.assets (matrix_of self.now t) }
    {
        let n = self.returns.assets;
        let base = t * n;
        let w = weight(self.weights, t);
        numbers(
            self.row,
            &self.returns.numbers[base..base + n],
            self.units,
            self.centers,
            w,
            &mut out[..n],
        );
    }
}
