// The decomposition of a symmetric matrix, with C linkage.
ghost use Rattle.std.specs.Prelude.{◌≡◌};
ghost use Rattle.parts.specs.Jacobi as Jacobi;

// 0: found. 1: not found. 2: the arguments do not fit each other, and nothing is written.
#[unsafe(no_mangle)]
pub extern "C" fn matrix_decompose(
    a: &[f64],
    n: usize,
    limit: usize,
    values: &mut [f64],
    vectors: &mut [f64],
    counts: &mut [usize; 2],
) -> u32
    ensures { Jacobi.left result values.new vectors.new counts.new ≡ Jacobi.matrix_decompose a.now n limit values.old vectors.old counts.old }
{
    if n > matrix::MAX_SIDE {
        return 2;
    }
    if limit > matrix::MAX_SWEEPS {
        return 2;
    }
    if a.len() != n * n {
        return 2;
    }
    if values.len() != n {
        return 2;
    }
    if vectors.len() != n * n {
        return 2;
    }
    let outcome = matrix::jacobi::decompose(a, n, limit, values, vectors);
    *counts = [outcome.sweeps, outcome.rotations];
    if outcome.found { 0 } else { 1 }
}
