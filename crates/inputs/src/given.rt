// A given covariance: its checks, its average with its transpose and its decomposition (covariance.rs, `CovarianceConfig::given`).
// A matrix is a slice and its side here, as the crate `matrix` takes it.
ghost use Rattle.std.specs.Prelude.{◌≡◌, ◌*◌, ◌<◌, ◌≤◌, List, length, Float};
ghost use Rattle.matrix.specs.Limits.{max_side, max_sweeps};
ghost use Rattle.matrix.specs.Matrix.{at};
ghost use Rattle.matrix.specs.Jacobi.{Decomposition};
ghost use Rattle.matrix.specs.Inner.{decomposed};
ghost use Rattle.rules.specs.Refusals as Refusals;
ghost use Rattle.rules.specs.Given as Given;
ghost use Rattle.rules.specs.Order as Order;
ghost use Rattle.rules.specs.Order.{by_sizes, by_entries, by_numbers};
ghost use Rattle.inputs.specs.Checks.{checked, examined, judged};

use crate::checks::when;
use crate::entries::check_finite;
use matrix::jacobi::Outcome;
use rules::Refusal;

// Refusals 1 and 2; 10 by the slice's length.
#[tactic(auto, unfolding(rules::specs::Refusals::first))]
pub fn check_sizes(size: usize, n: usize) -> Result<(), Refusal>
    ensures { checked result ≡ Refusals.first (by_sizes size n) }
{
    if n == 0 {
        return Err(Refusal::NoAssets);
    }
    if n > matrix::MAX_SIDE {
        return Err(Refusal::TooLarge);
    }
    when(size != n * n, Refusal::WrongSide(n))
}

// Refusal 11: the first entry that differs from its transpose by more than 1e-12 of the largest.
#[tactic(auto, unfolding(rules::specs::Given::asymmetry))]
fn check_symmetric(g: &[f64], n: usize) -> Result<(), Refusal>
    requires { length g.now ≡ n * n }
    ensures { checked result ≡ Order.asymmetric n (at g.now n) }
{
    let tolerance = 1e-12 * matrix::entries::amax(g, n, n);
    match matrix::places::first_asymmetric(g, n, tolerance) {
        Some((i, j)) => Err(Refusal::Asymmetric(i, j)),
        None => Ok(()),
    }
}

// Refusals 5 and 11.
pub fn check_entries(g: &[f64], n: usize) -> Result<(), Refusal>
    requires { length g.now ≡ n * n }
    ensures { checked result ≡ Refusals.first (by_entries n (at g.now n)) }
{
    check_finite(g, n, n)?;
    check_symmetric(g, n)
}

// The average with the transpose.
pub fn average(g: &[f64], n: usize, out: &mut [f64])
    requires { (length g.now ≡ n * n) × (length out.old ≡ n * n) }
    ensures { out.new ≡ Given.averaged_of g.now n }
{
    matrix::tables::average(g, n, out);
}

// The decomposition of a matrix over its largest entry, in `over`. A zero matrix is not decomposed.
pub fn decompose(
    a: &[f64],
    n: usize,
    limit: usize,
    over: &mut [f64],
    values: &mut [f64],
    vectors: &mut [f64],
) -> Outcome
    requires { (n ≤ max_side) × (limit ≤ max_sweeps) × (length a.now ≡ n * n) × (length over.old ≡ n * n) × (length values.old ≡ n) × (length vectors.old ≡ n * n) }
    ensures { decomposed result.found values.new vectors.new result.sweeps result.rotations ≡ Given.decompose_given limit n (at a.now n) }
{
    let scale = matrix::entries::amax(a, n, n);
    if 0.0 < scale {
        matrix::tables::divide(a, n, scale, over);
        return matrix::jacobi::decompose(over, n, limit, values, vectors);
    }
    matrix::jacobi::unturned(n, true, values, vectors)
}

// Refusal 13, of a decomposition that is found or not.
pub fn not_decomposed(found: bool) -> Result<(), Refusal>
    ensures { (d : Decomposition) → d.found ≡ found → checked result ≡ Order.not_decomposed d }
{
    when(!found, Refusal::NotDecomposed)
}

// Refusal 12 of the matrix `a`, by the values of its decomposition.
pub fn not_semidefinite(values: &[f64], a: &[f64], n: usize) -> Result<(), Refusal>
    requires { (0 < n) × (length values.now ≡ n) × (length a.now ≡ n * n) }
    ensures { (d : Decomposition) → d.values ≡ values.now → checked result ≡ Order.not_semidefinite n (at a.now n) d }
{
    let lowest = matrix::entries::smallest(values);
    let size = std::num::nearest_u64_to_f64(n as u64);
    if lowest < -10.0 * size * leaves::numbers::EPSILON * leaves::sums::amax(values) {
        return Err(Refusal::Indefinite(lowest * matrix::entries::amax(a, n, n)));
    }
    Ok(())
}

// Refusals 13 and 12, by the values that the decomposition `d` of the matrix `a` has, or its sweeps and rotations.
fn judge(d: Outcome, values: &[f64], a: &[f64], n: usize) -> Result<(usize, usize), Refusal>
    requires { (0 < n) × (length values.now ≡ n) × (length a.now ≡ n * n) }
    ensures { (v : List Float) → result ≡ judged n (at a.now n) (decomposed d.found values.now v d.sweeps d.rotations) }
{
    not_decomposed(d.found)?;
    not_semidefinite(values, a, n)?;
    Ok((d.sweeps, d.rotations))
}

// `check_values`, with three slices to reckon in.
fn check_values_in(
    a: &[f64],
    n: usize,
    limit: usize,
    over: &mut [f64],
    values: &mut [f64],
    vectors: &mut [f64],
) -> Result<(usize, usize), Refusal>
    requires { (0 < n) × (n ≤ max_side) × (limit ≤ max_sweeps) × (length a.now ≡ n * n) × (length over.old ≡ n * n) × (length values.old ≡ n) × (length vectors.old ≡ n * n) }
    ensures { result ≡ judged n (at a.now n) (Given.decompose_given limit n (at a.now n)) }
{
    let d = decompose(a, n, limit, over, values, vectors);
    judge(d, values, a, n)
}

// Refusals 13 and 12 of an averaged matrix.
fn check_values(a: &[f64], n: usize, limit: usize) -> Result<(usize, usize), Refusal>
    requires { (0 < n) × (n ≤ max_side) × (limit ≤ max_sweeps) × (length a.now ≡ n * n) }
    ensures { result ≡ judged n (at a.now n) (Given.decompose_given limit n (at a.now n)) }
{
    let mut over = [0.0; matrix::MAX_SIDE * matrix::MAX_SIDE];
    let mut values = [0.0; matrix::MAX_SIDE];
    let mut vectors = [0.0; matrix::MAX_SIDE * matrix::MAX_SIDE];
    let size = n * n;
    check_values_in(
        a,
        n,
        limit,
        &mut over[..size],
        &mut values[..n],
        &mut vectors[..size],
    )
}

// The average of a given matrix with its transpose, and whether it is refused, by 5, 11, 13, 12 in this order, or the sweeps and rotations that its decomposition took.
pub fn examine(
    g: &[f64],
    n: usize,
    limit: usize,
    out: &mut [f64],
) -> Result<(usize, usize), Refusal>
    requires { (0 < n) × (n ≤ max_side) × (limit ≤ max_sweeps) × (length g.now ≡ n * n) × (length out.old ≡ n * n) }
    ensures { (out.new ≡ Given.averaged_of g.now n) × (result ≡ examined (Refusals.first (by_numbers n (at g.now n) (Given.decompose_given limit n (at out.new n)))) (Given.decompose_given limit n (at out.new n))) }
{
    average(g, n, out);
    check_entries(g, n)?;
    check_values(out, n, limit)
}
