// The question file: bytes to numbers.
ghost use Rattle.std.specs.Prelude.{◌≡◌, ◌+◌, ◌<◌, ◌≤◌, length, take, drop};
ghost use Rattle.paper.specs.Grammar as Grammar;
ghost use Rattle.paper.specs.Grammar.{taken, kinds, sheet};
ghost use Rattle.paper.specs.Rules.{first_of};
ghost use Rattle.paper.specs.Inner.{TookIs, ScannedIs, ReadIs};

use crate::format::{Outline, well_formed};
use crate::kinds::{KINDS, Kind, RECORDS, kind_at};
use crate::text::put;

// The little-endian number of len bytes at a place.
fn number(file: &[u8], at: usize, len: usize) -> u64
    requires { (len ≤ 8) × (at + len ≤ length file.now) }
    ensures { result ≡ Grammar.little (take len (drop at file.now)) }
{
    let mut bytes = [0u8; 8];
    bytes[..len].copy_from_slice(&file[at..at + len]);
    u64::from_le_bytes(bytes)
}

// Whether a record of kind k stands at a place, body and all.
fn starts(file: &[u8], at: usize, k: Kind) -> bool
    requires { at ≤ length file.now }
    ensures { result ≡ Grammar.starts k (drop at file.now) }
{
    k.body < file.len() - at && file[at] == k.byte
}

// The first body of the records of kind k that stand at a place, 0 where there is none.
fn first(file: &[u8], at: usize, k: Kind) -> u64
    requires { (k.body ≤ 8) × (0 < k.most) × (at ≤ length file.now) }
    ensures { result ≡ first_of (taken k k.most (drop at file.now)).bodies }
{
    if starts(file, at, k) {
        number(file, at + 1, k.body)
    } else {
        0
    }
}

// The place in the file after the records of a kind, the place for the next number, and how many records there were.
#[derive(Drop)]
pub(crate) struct Took {
    pub at: usize,
    pub next: usize,
    pub count: usize,
}

// Takes the records of kind k that stand at `from`, and writes their bodies at `to`.
fn take_kind(file: &[u8], from: usize, k: Kind, numbers: &mut [u64], to: usize) -> Took
    requires { (k.body ≤ 8) × (from ≤ length file.now) }
    ensures { TookIs file.now (taken k k.most (drop from file.now)) numbers.old to numbers.new result }
{
    let mut at = from;
    let mut next = to;
    for count in 0..k.most {
        if !starts(file, at, k) {
            return Took { at, next, count };
        }
        next = put(numbers, next, number(file, at + 1, k.body));
        at += k.body + 1;
    }
    Took {
        at,
        next,
        count: k.most,
    }
}

// The place after the records of all kinds, and the outline of what was read.
#[derive(Drop)]
pub(crate) struct Scanned {
    pub end: usize,
    pub outline: Outline,
}

// By index: two lists are filled beside the table of kinds.
fn scan(file: &[u8], numbers: &mut [u64]) -> Scanned
    ensures { ScannedIs (sheet kinds file.now) file.now numbers.old numbers.new result }
{
    let mut counts = [0u64; KINDS];
    let mut firsts = [0u64; KINDS];
    let mut at = 0;
    let mut next = 0;
    for i in 0..KINDS {
        let k = kind_at(i);
        firsts[i] = first(file, at, k);
        let t = take_kind(file, at, k, numbers, next);
        counts[i] = t.count as u64;
        at = t.at;
        next = t.next;
    }
    let outline = Outline { counts, firsts };
    Scanned { end: at, outline }
}

// The outline of a file that is a question. The bodies go to the front of the numbers, in the order of the file.
pub(crate) fn read(file: &[u8], numbers: &mut [u64; RECORDS]) -> Option<Outline>
    ensures { ReadIs file.now numbers.old numbers.new result }
{
    let s = scan(file, numbers);
    let outline = s.outline;
    if s.end == file.len() && well_formed(outline) {
        Some(outline)
    } else {
        None
    }
}
