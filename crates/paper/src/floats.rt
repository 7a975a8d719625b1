// Floats from the bits that were read.
ghost use Rattle.std.specs.Prelude.{◌≡◌, ℕ, ◌≤◌, length, get_or};
ghost use Rattle.leaves.specs.Numbers as Numbers;
ghost use Rattle.leaves.specs.Loops.{fill};

use leaves::numbers::float;

// Fills the front of `to` with the floats of these bits.
pub(crate) fn fill_floats(bits: &[u64], to: &mut [f64])
    requires { length bits.now ≤ length to.old }
    ensures { to.new ≡ fill (length bits.now) (λ (i : ℕ). Numbers.float (get_or bits.now i 0)) to.old }
{
    for (i, &b) in bits.iter().enumerate() {
        to[i] = float(b);
    }
}
