// A period's row of numbers, formed from its returns. The sums of the estimators differ in their rows and in what a row adds.
ghost use Rattle.std.specs.Prelude.{◌≡◌, ℕ, ◌+◌, ◌≤◌, length, Float};
ghost use Rattle.leaves.specs.Numbers.{◌⊗◌};
ghost use Rattle.leaves.specs.Loops.{tab, nth};
ghost use Rattle.matrix.specs.Limits.{max_side};
ghost use Rattle.tables.specs.Rows.{in_unit, formed};

use leaves::numbers::min0;

// The return itself, or its period's weight times it; or the return less its column's center: as it is, its part below 0, times its period's
// weight, or times a power of two as two factors. An enum and not a closure: it is data of the definitions, which are by its cases.
#[derive(Clone, Copy)]
pub enum Row {
    Plain,
    Weighted,
    Deviation,
    Shortfall,
    WeightedDeviation,
    Scaled(f64, f64),
}

// f of each number and its column's center.
fn each<F: Fn(f64, f64) -> f64>(f: F, xs: &[f64], centers: &[f64], out: &mut [f64])
    requires { F.IsAlwaysCallable f × (length xs.now ≡ length out.old) × (length centers.now ≡ length out.old) }
    ensures { (h : Float → Float → Float) → ((x c y : Float) → F.post f x c y → y ≡ h x c) → out.new ≡ tab (length out.old) (λ (k : ℕ). h (nth xs.now k) (nth centers.now k)) }
{
    for k in 0..out.len() {
        out[k] = f(xs[k], centers[k]);
    }
}

// The loops run inside of the cases: a number is not asked for its row's case.
fn entries(row: Row, xs: &[f64], centers: &[f64], w: f64, out: &mut [f64])
    requires { (length xs.now ≡ length out.old) × (length centers.now ≡ length out.old) }
    ensures { out.new ≡ tab (length out.old) (λ (k : ℕ). formed row (nth xs.now k) (nth centers.now k) w) }
{
    match row {
        Row::Plain => {
            each(|x, _| x, xs, centers, out);
        }
        Row::Weighted => {
            each(|x, _| w * x, xs, centers, out);
        }
        Row::Deviation => {
            each(|x, c| x - c, xs, centers, out);
        }
        Row::Shortfall => {
            each(|x, c| min0(x - c), xs, centers, out);
        }
        Row::WeightedDeviation => {
            each(|x, c| (x - c) * w, xs, centers, out);
        }
        Row::Scaled(near, far) => {
            each(|x, c| (x - c) * near * far, xs, centers, out);
        }
    }
}

// Each number times its column's unit, the first factor first.
fn to_units(xs: &[f64], units: &[f64], out: &mut [f64])
    requires { (length xs.now ≡ length out.old) × (length out.old + length out.old ≤ length units.now) }
    ensures { out.new ≡ tab (length out.old) (λ (k : ℕ). nth xs.now k ⊗ nth units.now k ⊗ nth units.now (length out.old + k)) }
{
    let n = out.len();
    for k in 0..n {
        out[k] = xs[k] * units[k] * units[n + k];
    }
}

// A row's numbers, each in its column's unit first where there are units.
#[tactic(auto, using(matrix::proofs::Lent::lent))]
pub(crate) fn numbers(row: Row, xs: &[f64], units: &[f64], centers: &[f64], w: f64, out: &mut [f64])
    requires { (length out.old ≤ max_side) × (length xs.now ≡ length out.old) × (length centers.now ≡ length out.old) }
    ensures { out.new ≡ tab (length out.old) (λ (k : ℕ). formed row (in_unit (length out.old) units.now k (nth xs.now k)) (nth centers.now k) w) }
{
    let n = out.len();
    if n + n <= units.len() {
        let mut buffer = [0.0; matrix::MAX_SIDE];
        let scaled = &mut buffer[..n];
        to_units(xs, units, scaled);
        entries(row, scaled, centers, w, out);
    } else {
        entries(row, xs, centers, w, out);
    }
}
