// What only looks at a number, document 01's min, max and clamp, and a number from its bits.
ghost use Rattle.std.specs.Prelude.{◌≡◌};
ghost use Rattle.leaves.specs.Numbers as Numbers;

// 2^-52.
pub const EPSILON: f64 = f64::EPSILON;

// The float with these bits; those of any NaN give a NaN.
pub fn float(bits: u64) -> f64
    ensures { result ≡ Numbers.float bits }
{
    if bits % 0x8000000000000000 > 0x7FF0000000000000 {
        f64::NAN
    } else {
        f64::from_bits(bits)
    }
}

pub fn is_finite(x: f64) -> bool
    ensures { result ≡ Numbers.is_finite x }
{
    x.is_finite()
}

// At -0 it is 0.
pub fn abs(x: f64) -> f64
    ensures { result ≡ Numbers.abs x }
{
    x.abs()
}

// 1 with the sign of x, of a zero too.
pub fn signum(x: f64) -> f64
    ensures { result ≡ Numbers.signum x }
{
    x.signum()
}

// The larger and the smaller of two, the first where they do not differ or one is NaN.
// std's max and min pass a NaN over, and may return either of -0 and +0, so these four are written out.
pub fn larger(m: f64, x: f64) -> f64
    ensures { result ≡ Numbers.larger m x }
{
    if m < x { x } else { m }
}

pub fn smaller(m: f64, x: f64) -> f64
    ensures { result ≡ Numbers.smaller m x }
{
    if x < m { x } else { m }
}

pub fn max0(y: f64) -> f64
    ensures { result ≡ Numbers.max0 y }
{
    if y > 0.0 { y } else { 0.0 }
}

pub fn min0(y: f64) -> f64
    ensures { result ≡ Numbers.min0 y }
{
    if y < 0.0 { y } else { 0.0 }
}

pub fn clamp01(x: f64) -> f64
    ensures { result ≡ Numbers.clamp01 x }
{
    x.clamp(0.0, 1.0)
}
