// The screen number: the exact value, rounded to four decimals.
ghost use Rattle.std.specs.Prelude.{◌≡◌, cond, [], ◌∷◌, ◌*◌, ◌^◌, ◌<◌};
ghost use Rattle.paper.specs.Text.{minus_sign, out as into, write};
ghost use Rattle.paper.specs.Screen as Screen;

use crate::text::{put, put_decimal, put_digits, put_text};

// Not an `Option`: `big` is a text that is shown.
#[derive(Drop)]
pub(crate) enum Shown {
    Big,
    // How many ten-thousandths, and whether a minus stands before them.
    Number { minus: bool, units: u64 },
}

// The whole number nearest to n / unit, of two as near the larger.
fn nearest(n: u64, unit: u64) -> u64
    requires { (n < 2 ^ 63) × (0 < unit) }
    ensures { result ≡ Screen.nearest n unit }
{
    let below = n / unit;
    let rest = n % unit;
    // The way down and the way up.
    if rest < unit - rest { below } else { below + 1 }
}

// The ten-thousandths nearest to m * 2^(-shift - 4).
fn units(m: u64, shift: u64) -> u64
    requires { m < 2 ^ 53 }
    ensures { result ≡ Screen.nearest (m * 625) (2 ^ shift) }
{
    if shift > 63 {
        0
    } else {
        nearest(m * 625, 1 << shift)
    }
}

// From the fields of the bits. Size 2^31 has the exponent 1054.
fn show(x: f64) -> Shown
    ensures { result ≡ Screen.shown x }
{
    if x.is_nan() {
        return Shown::Big;
    }
    let bits = f64::to_bits(x);
    let exponent = bits % 0x8000000000000000 / 0x10000000000000;
    let fraction = bits % 0x10000000000000;
    if exponent > 1053 {
        return Shown::Big;
    }
    let units = if exponent == 0 {
        units(fraction, 1070)
    } else {
        units(0x10000000000000 + fraction, 1071 - exponent)
    };
    let minus = if units == 0 {
        false
    } else {
        bits >= 0x8000000000000000
    };
    Shown::Number { minus, units }
}

fn put_minus(minus: bool, out: &mut [u8], at: usize) -> usize
    ensures { into out.new result ≡ write (into out.old at) (cond minus (minus_sign ∷ []) []) }
{
    if minus { put(out, at, b'-') } else { at }
}

fn put_shown(s: Shown, out: &mut [u8], at: usize) -> usize
    ensures { into out.new result ≡ write (into out.old at) (Screen.shown_text s) }
{
    match s {
        Shown::Big => put_text(b"big", out, at),
        Shown::Number { minus, units } => {
            let a = put_minus(minus, out, at);
            let b = put_decimal(units / 10000, b'.', out, a);
            put_digits(10, 4, units % 10000, out, b)
        }
    }
}

pub(crate) fn put_screen(x: f64, out: &mut [u8], at: usize) -> usize
    ensures { into out.new result ≡ write (into out.old at) (Screen.screen_text x) }
{
    put_shown(show(x), out, at)
}
