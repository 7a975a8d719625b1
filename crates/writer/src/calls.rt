// The writer: the record is looked at, then the output's length, and then the file is written.
ghost use Rattle.std.specs.Prelude.{◌≡◌, ◌≤◌};
ghost use Rattle.paper.specs.Grammar.{file_assets};
ghost use Rattle.paper.specs.Question.{contents};
ghost use Rattle.writer.specs.Writer as Writer;

use crate::files::{file_length, put_file};
use crate::outlines::outline_of;
use paper::format::well_formed;
use paper::kinds::{FILE_ASSETS, FILE_PERIODS};
use paper::question::Question;

#[tactic(auto, unfolding(crate::specs::Writer::shape_kept))]
fn shape_kept(q: Question) -> bool
    ensures { result ≡ Writer.shape_kept q }
{
    q.assets <= FILE_ASSETS && q.periods <= FILE_PERIODS
}

fn limit_kept(limit: Option<usize>) -> bool
    ensures { result ≡ Writer.limit_kept limit }
{
    limit.is_none_or(|limit| limit <= 255)
}

#[tactic(auto, unfolding(crate::specs::Writer::given_kept, paper::specs::Question::given_count))]
fn given_kept(q: Question, given: &[u64]) -> bool
    requires { q.assets ≤ file_assets }
    ensures { result ≡ Writer.given_kept q given.now }
{
    if !q.estimate.is_given() {
        return given.is_empty();
    }
    q.assets != 0 && given.len() == q.assets * q.assets
}

fn record_kept(q: Question, given: &[u64]) -> bool
    ensures { result ≡ Writer.record_kept q given.now }
{
    shape_kept(q) && limit_kept(q.limit) && given_kept(q, given)
}

// Why no file is written: the record breaks a rule of the format or has a given matrix of 0 assets, or the output is too short.
#[derive(Clone, Copy)]
pub enum WriteError {
    BreaksFormat,
    TooShort,
}

// Writes the file of a question to the front of `out`, and answers how many bytes that is. What stands behind it is kept, and all of `out` where nothing is written.
pub fn write_question(
    q: Question,
    returns: &[u64],
    given: &[u64],
    out: &mut [u8],
) -> Result<usize, WriteError>
    ensures { Writer.left result out.new ≡ Writer.written (contents q returns.now given.now) out.old }
{
    if !record_kept(q, given) {
        return Err(WriteError::BreaksFormat);
    }
    let o = outline_of(q, returns, given);
    if !well_formed(o) {
        return Err(WriteError::BreaksFormat);
    }
    let size = file_length(o.counts);
    if out.len() < size {
        return Err(WriteError::TooShort);
    }
    put_file(o, returns, given, out);
    Ok(size)
}
