// A question file read into lent slices: its record, its returns and its given entries.
ghost use Rattle.std.specs.Prelude.{◌≡◌, ◌^◌, ◌≤◌, ◌<◌, length, get_or, take};
ghost use Rattle.paper.specs.Grammar.{kinds, place_in};
ghost use Rattle.paper.specs.Question.{front, of_kind, into, read_into, read_question};
ghost use Rattle.paper.specs.Inner.{split, total, byte_of};

use crate::format::count;
use crate::kinds::{KINDS, KindName, RECORDS, place};
use crate::question::{Question, question_in};
use crate::reader::read;

// Where the numbers of the kind at place p begin.
fn start(counts: [u64; KINDS], p: usize) -> usize
    requires { (p ≤ length counts) × (total counts < 2 ^ 64) }
    ensures { result ≡ total (take p counts) }
{
    let mut s = 0;
    for &count in &counts[..p] {
        s += count as usize;
    }
    s
}

// Copies the numbers of a kind to the front of a slice.
fn copy_kind(counts: [u64; KINDS], numbers: &[u64], kind: KindName, to: &mut [u64])
    requires { (total counts ≤ length numbers.now) × (get_or counts (place_in kinds (byte_of kind)) 0 ≤ length to.old) }
    ensures { to.new ≡ front (of_kind (split counts numbers.now) (byte_of kind)) to.old }
{
    let p = place(kind);
    let from = start(counts, p);
    let len = counts[p] as usize;
    to[..len].copy_from_slice(&numbers[from..from + len]);
}

// Why nothing is read: the file is no question, or a slice is too short for it.
#[derive(Clone, Copy)]
pub enum ReadError {
    Malformed,
    TooShort,
}

// Reads a question file. Its returns and its given entries go to the front of the two slices; a slice that is too short for them takes nothing, nor does the other.
pub fn read_question(
    file: &[u8],
    returns: &mut [u64],
    given: &mut [u64],
) -> Result<Question, ReadError>
    ensures { into result returns.new given.new ≡ read_into (read_question file.now) returns.old given.old }
{
    let mut numbers = [0u64; RECORDS];
    let outline = read(file, &mut numbers).ok_or(ReadError::Malformed)?;
    if (returns.len() as u64) < count(outline, KindName::Return) {
        return Err(ReadError::TooShort);
    }
    if (given.len() as u64) < count(outline, KindName::GivenEntry) {
        return Err(ReadError::TooShort);
    }
    copy_kind(outline.counts, &numbers, KindName::Return, returns);
    copy_kind(outline.counts, &numbers, KindName::GivenEntry, given);
    Ok(question_in(outline))
}
