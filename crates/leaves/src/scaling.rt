// b(x) and the multiplication by a power of two, with the recursions of the source (stats.rs).
ghost use Rattle.std.specs.Prelude.{◌≡◌, T, pos, negsuc, int_le};
ghost use Rattle.leaves.specs.Scaling as Scaling;

// 2^k, for k in the normal range.
fn pow2(k: i32) -> f64
    requires low { T (int_le (negsuc 1021) k) }
    requires high { T (int_le k (pos 1023)) }
    ensures { result ≡ Scaling.pow2 k }
{
    f64::from_bits(((k + 1023) as u64) << 52)
}

// k cut to -1022..1023: the step of a scaling by 2^k.
pub fn cut(k: i32) -> i32
    ensures { result ≡ Scaling.cut k }
{
    k.clamp(-1022, 1023)
}

// x times 2^k, in steps that stay in the normal range.
pub fn pow2_scaled(x: f64, k: i32) -> f64
    ensures { result ≡ Scaling.pow2_scaled x k }
{
    let step = cut(k);
    let y = x * pow2(step);
    if step == k {
        y
    } else {
        pow2_scaled(y, k - step)
    }
}

// The exponent of the leading bit of x; 0 for 0, 1024 for an infinity and NaN.
pub fn binary_exponent(x: f64) -> i32
    ensures { result ≡ Scaling.binary_exponent x }
{
    if x.is_nan() {
        return 1024;
    }
    if x == 0.0 {
        return 0;
    }
    let biased = ((f64::to_bits(x) >> 52) & 0x7ff) as i32;
    if biased == 0 {
        // Subnormal: scale it into the normal range first.
        binary_exponent(x * pow2(64)) - 64
    } else {
        biased - 1023
    }
}
