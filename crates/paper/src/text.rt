// Text in a lent buffer. Each function writes at a place and answers the next place; a full buffer takes nothing more.
// Not methods of a struct over the buffer: each would have to promise besides that it keeps the reference.
ghost use Rattle.std.specs.Prelude.{◌≡◌, [], ◌∷◌, ◌++◌, ◌<◌, ◌≤◌, length, drop};
ghost use Rattle.paper.specs.Text as Text;
ghost use Rattle.paper.specs.Text.{out as into, write};

// No number of 64 bits has more decimal digits: the definitions' `max_digits`.
const DIGITS: usize = 20;

pub fn put<T: Copy>(out: &mut [T], at: usize, x: T) -> usize
    ensures { into out.new result ≡ write (into out.old at) (x ∷ []) }
{
    if at < out.len() {
        out[at] = x;
        at + 1
    } else {
        at
    }
}

pub(crate) fn put_text(text: &[u8], out: &mut [u8], from: usize) -> usize
    ensures { into out.new result ≡ write (into out.old from) text.now }
{
    let mut at = from;
    for &b in text {
        at = put(out, at, b);
    }
    at
}

// `char::from_digit` has the letters of lower case.
#[tactic(auto, unfolding(crate::specs::Text::glyph))]
fn glyph(d: u64) -> u8
    requires { d < 16 }
    ensures { result ≡ Text.glyph d }
{
    if d < 10 {
        b'0' + d as u8
    } else {
        b'A' - 10 + d as u8
    }
}

// The last digits of n, as many as the text is long.
fn fill_digits(base: u64, n: u64, text: &mut [u8])
    requires { (0 < base) × (base ≤ 16) }
    ensures { text.new ≡ Text.digits base (length text.old) n }
{
    let mut rest = n;
    for i in (0..text.len()).rev() {
        text[i] = glyph(rest % base);
        rest /= base;
    }
}

// Where the digits begin that have no 0 in front of another.
fn significant(text: &[u8]) -> usize
    ensures { (result ≤ length text.now) × (drop result text.now ≡ Text.unpadded text.now) }
{
    let last = text.len().saturating_sub(1);
    for i in 0..last {
        if text[i] != b'0' {
            return i;
        }
    }
    last
}

// The last k digits of n.
pub(crate) fn put_digits(base: u64, k: usize, n: u64, out: &mut [u8], at: usize) -> usize
    requires { (0 < base) × (base ≤ 16) × (k ≤ Text.max_digits) }
    ensures { into out.new result ≡ write (into out.old at) (Text.digits base k n) }
{
    let mut text = [0u8; DIGITS];
    fill_digits(base, n, &mut text);
    let first = DIGITS - k;
    put_text(&text[first..], out, at)
}

// n in decimal, and one byte after it.
pub(crate) fn put_decimal(n: u64, after: u8, out: &mut [u8], at: usize) -> usize
    ensures { into out.new result ≡ write (into out.old at) (Text.decimal n ++ (after ∷ [])) }
{
    let mut text = [0u8; DIGITS];
    fill_digits(10, n, &mut text);
    let first = significant(&text);
    let next = put_text(&text[first..], out, at);
    put(out, next, after)
}
