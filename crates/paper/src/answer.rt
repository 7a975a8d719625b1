// The printed answer.
ghost use Rattle.std.specs.Prelude.{◌≡◌, [], ◌∷◌, ◌++◌, length};
ghost use Rattle.std.specs.Float.{binary64};
ghost use Rattle.std.specs.Float.Ieee.{to_bits};
ghost use Rattle.paper.specs.Text.{space, out as into, write};
ghost use Rattle.paper.specs.Answer as Answers;

use crate::screen::put_screen;
use crate::text::{put, put_decimal, put_digits, put_text};
use rules::{Answer, Refusal};

// The bits of x, those of one NaN for every NaN.
fn bits(x: f64) -> u64
    ensures { result ≡ to_bits binary64 x }
{
    if x.is_nan() {
        0x7FF8000000000000
    } else {
        f64::to_bits(x)
    }
}

// The bits in hexadecimal, and a space.
fn put_bits(x: f64, out: &mut [u8], at: usize) -> usize
    ensures { into out.new result ≡ write (into out.old at) (Answers.bits_text x ++ (space ∷ [])) }
{
    let next = put_digits(16, 16, bits(x), out, at);
    put(out, next, b' ')
}

fn put_line(i: usize, j: usize, x: f64, out: &mut [u8], at: usize) -> usize
    ensures { into out.new result ≡ write (into out.old at) (Answers.line_text i j x) }
{
    let a = put_decimal(i as u64, b' ', out, at);
    let b = put_decimal(j as u64, b' ', out, a);
    let c = put_bits(x, out, b);
    let d = put_screen(x, out, c);
    put(out, d, b'\n')
}

// An answer's numbers, row by row.
#[derive(Clone, Copy)]
pub(crate) struct Entries<'a> {
    pub rows: usize,
    pub columns: usize,
    pub numbers: &'a [f64],
    pub ghost none_without_columns: { columns ≡ 0 → length numbers.now ≡ 0 },
}

fn put_lines(e: &Entries, out: &mut [u8], from: usize) -> usize
    ensures { into out.new result ≡ write (into out.old from) (Answers.lines_text e.now.columns 0 e.now.numbers.now) }
{
    let mut at = from;
    for (k, &x) in e.numbers.iter().enumerate() {
        at = put_line(k / e.columns, k % e.columns, x, out, at);
    }
    at
}

pub(crate) fn put_refused(number: u64, out: &mut [u8], at: usize) -> usize
    ensures { into out.new result ≡ write (into out.old at) (Answers.outcome_text (Answers.refused number)) }
{
    let a = put_text(b"refused ", out, at);
    put_decimal(number, b'\n', out, a)
}

fn put_ok(e: &Entries, out: &mut [u8], at: usize) -> usize
    ensures { into out.new result ≡ write (into out.old at) (Answers.outcome_text (Answers.ok e.now.rows e.now.columns e.now.numbers.now)) }
{
    let a = put_text(b"ok ", out, at);
    let b = put_decimal(e.rows as u64, b' ', out, a);
    let c = put_decimal(e.columns as u64, b'\n', out, b);
    put_lines(e, out, c)
}

// What the engine returned, with the answer slice.
pub(crate) fn put_answer(
    answer: Result<Answer, Refusal>,
    e: &Entries,
    out: &mut [u8],
    at: usize,
) -> usize
    ensures { into out.new result ≡ write (into out.old at) (Answers.outcome_text (Answers.outcome e.now.rows e.now.columns answer e.now.numbers.now)) }
{
    match answer {
        Ok(_) => put_ok(e, out, at),
        Err(r) => put_refused(r.number() as u64, out, at),
    }
}
