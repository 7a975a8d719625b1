// The bytes of a question file, by the table of kinds.
ghost use Rattle.std.specs.Prelude.{◌≡◌, ◌^◌, ◌<◌, [], ◌∷◌};
ghost use Rattle.paper.specs.Text.{out as into, write};
ghost use Rattle.paper.specs.Grammar.{kinds};
ghost use Rattle.writer.specs.Files as Files;
ghost use Rattle.writer.specs.Inner as Inner;

use paper::format::Outline;
use paper::kinds::{KINDS, Kind, kind_at};
use paper::text::put;

// The kinds whose bodies stand in slices beside the record.
const RETURN: u8 = 2;

const GIVEN_ENTRY: u8 = 9;

// The last len bytes of a number, the least first. The library's `to_le_bytes` has eight bytes alone.
fn put_body(v: u64, len: usize, out: &mut [u8], from: usize) -> usize
    ensures { into out.new result ≡ write (into out.old from) (Files.bytes_of len v) }
{
    let mut rest = v;
    let mut at = from;
    for _i in 0..len {
        at = put(out, at, (rest % 256) as u8);
        rest /= 256;
    }
    at
}

fn put_record(k: Kind, body: u64, out: &mut [u8], from: usize) -> usize
    ensures { into out.new result ≡ write (into out.old from) (Files.records k (body ∷ [])) }
{
    let next = put(out, from, k.byte);
    put_body(body, k.body, out, next)
}

fn put_records(k: Kind, bodies: &[u64], out: &mut [u8], from: usize) -> usize
    ensures { into out.new result ≡ write (into out.old from) (Files.records k bodies.now) }
{
    let mut at = from;
    for &body in bodies {
        at = put_record(k, body, out, at);
    }
    at
}

// The records of kind k, of which there are so many, with this first body.
fn put_kind(
    k: Kind,
    count: u64,
    first: u64,
    returns: &[u64],
    given: &[u64],
    out: &mut [u8],
    from: usize,
) -> usize
    ensures { into out.new result ≡ write (into out.old from) (Files.records k (Inner.pick k count first returns.now given.now)) }
{
    if k.byte == RETURN {
        return put_records(k, returns, out, from);
    }
    if k.byte == GIVEN_ENTRY {
        return put_records(k, given, out, from);
    }
    if count == 0 {
        return from;
    }
    put_record(k, first, out, from)
}

// The file of this outline, where each kind but these two comes once at most. By index: two lists are read beside the table of kinds.
pub(crate) fn put_file(o: Outline, returns: &[u64], given: &[u64], out: &mut [u8]) -> usize
    ensures { into out.new result ≡ write (into out.old 0) (Files.file_of kinds (Inner.held o returns.now given.now)) }
{
    let mut at = 0;
    for i in 0..KINDS {
        let k = kind_at(i);
        at = put_kind(k, o.counts[i], o.firsts[i], returns, given, out, at);
    }
    at
}

// The bytes of so many records of each kind.
pub(crate) fn file_length(counts: [u64; KINDS]) -> usize
    requires { Files.length_of kinds counts < 2 ^ 64 }
    ensures { result ≡ Files.length_of kinds counts }
{
    let mut s = 0;
    for (i, &count) in counts.iter().enumerate() {
        let k = kind_at(i);
        s += count as usize * (k.body + 1);
    }
    s
}
