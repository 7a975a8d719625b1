// The entries of a matrix, refusal 5.
ghost use Rattle.std.specs.Prelude.{◌≡◌, ◌*◌, length};
ghost use Rattle.matrix.specs.Matrix.{at};
ghost use Rattle.rules.specs.Order.{not_finite};
ghost use Rattle.inputs.specs.Checks.{checked};

use rules::Refusal;

// The first entry of an m × n matrix that is NaN or infinite.
#[tactic(auto, unfolding(rules::specs::Order::not_finite))]
pub fn check_finite(a: &[f64], m: usize, n: usize) -> Result<(), Refusal>
    requires { length a.now ≡ m * n }
    ensures { checked result ≡ not_finite m n (at a.now n) }
{
    match matrix::places::first_not_finite(a, m, n) {
        Some((i, j)) => Err(Refusal::NotFinite(i, j)),
        None => Ok(()),
    }
}
