// Question files and printed answers: bytes in, bytes out.
#![tactic(auto)]

mod answer;
mod floats;
pub mod format;
pub mod kinds;
mod marking;
pub mod question;
mod reader;
pub mod reading;
mod screen;
mod settings;
pub mod text;

ghost use Rattle.std.specs.Prelude.{◌≡◌, take, drop};
ghost use Rattle.paper.specs.Text.{out as into, write, Counts};
ghost use Rattle.paper.specs.Marking.{marking};

use crate::answer::put_refused;
use crate::kinds::{ENTRIES, RETURNS};
use crate::marking::examine;
use crate::question::given_count;
use crate::reading::read_question;

// Bytes that are always enough for what is printed, as `mark_whole` has it.
pub const TEXT: usize = 8192;

// The refusal of a file that is no question: the definitions' `malformed_number`.
const MALFORMED: u64 = 15;

// Marks a question file: writes what is printed of it to the front of `out`, and answers how many bytes that is.
// An `out` that is too short takes the text's beginning.
pub fn mark(paper: &[u8], out: &mut [u8]) -> usize
    ensures result_after { into out.new result ≡ write (into out.old 0) (marking paper.now) }
    ensures counts { Counts result out.new }
{
    let mut returns = [0u64; RETURNS];
    let mut given = [0u64; ENTRIES];
    match read_question(paper, &mut returns, &mut given) {
        Ok(q) => {
            let t = q.periods * q.assets;
            let g = given_count(q);
            examine(q, &returns[..t], &given[..g], out)
        }
        Err(_) => put_refused(MALFORMED, out, 0),
    }
}

// The same in a buffer that has room for every text: the front of `out` is the whole text, and what stands behind it is kept.
pub fn mark_whole(paper: &[u8], out: &mut [u8; TEXT]) -> usize
    ensures out_after { take result out.new ≡ marking paper.now }
    ensures out_unchanged { drop result out.new ≡ drop result out.old }
    ensures counts { Counts result out.new }
{
    mark(paper, out)
}
