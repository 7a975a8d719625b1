// Question files written and read (include/engine.h).
ghost use Rattle.std.specs.Prelude.{◌≡◌};
ghost use Rattle.capi.specs.Report as Reports;
ghost use Rattle.capi.specs.Record as Records;
ghost use Rattle.capi.specs.Questions as Questions;

use crate::calls::UNKNOWN_KIND;
use crate::record::{bits_of, question_from, wholes_of};
use crate::report::{Report, hand_out, reported};
use paper::reading::{ReadError, read_question};
use writer::calls::{WriteError, write_question};

// The numbers of the writer's refusals: the definitions' `broken_number` and `short_number`.
const BROKEN: u32 = 17;

const SHORT_OUTPUT: u32 = 18;

// Those of the reader's: `malformed_number` and `short_slice`.
const MALFORMED: u32 = 15;

const SHORT_SLICE: u32 = 4;

fn report_of_written(told: Result<usize, WriteError>) -> Report
    ensures { result ≡ Questions.report_of_written told }
{
    match told {
        Err(WriteError::BreaksFormat) => reported(BROKEN, 0.0, 0.0, 0, 0),
        Err(WriteError::TooShort) => reported(SHORT_OUTPUT, 0.0, 0.0, 0, 0),
        Ok(count) => reported(0, 0.0, 0.0, count, 0),
    }
}

// Bits and a limit are read where their kind has them.
#[tactic(auto, unfolding(crate::specs::Questions::engine_write_question))]
pub fn engine_write_question(
    assets: usize,
    periods: usize,
    returns: &[u64],
    estimate: u32,
    estimate_bits: u64,
    shrinkage: u32,
    shrinkage_bits: u64,
    regularization: u32,
    regularization_bits: u64,
    given: &[u64],
    has_limit: u32,
    limit: usize,
    question: u32,
    out: &mut [u8],
    numbers: &mut [f64; 2],
    wholes: &mut [usize; 2],
) -> u32
    ensures { Questions.left_file (Reports.handed result numbers.new wholes.new) out.new ≡ Questions.engine_write_question (Records.known_question estimate shrinkage regularization has_limit question) (Records.question_from assets periods estimate estimate_bits shrinkage shrinkage_bits regularization regularization_bits has_limit limit question) returns.now given.now out.old }
{
    let Some(q) = question_from(
        assets,
        periods,
        estimate,
        estimate_bits,
        shrinkage,
        shrinkage_bits,
        regularization,
        regularization_bits,
        has_limit,
        limit,
        question,
    ) else {
        return hand_out(reported(UNKNOWN_KIND, 0.0, 0.0, 0, 0), numbers, wholes);
    };
    let told = write_question(q, returns, given, out);
    hand_out(report_of_written(told), numbers, wholes)
}

#[tactic(auto, unfolding(crate::specs::Questions::engine_read_question))]
pub fn engine_read_question(
    file: &[u8],
    returns: &mut [u64],
    given: &mut [u64],
    bits: &mut [u64; 3],
    wholes: &mut [usize; 8],
) -> u32
    ensures { Questions.left_record result returns.new given.new bits.new wholes.new ≡ Questions.engine_read_question file.now returns.old given.old bits.old wholes.old }
{
    match read_question(file, returns, given) {
        Err(ReadError::Malformed) => MALFORMED,
        Err(ReadError::TooShort) => SHORT_SLICE,
        Ok(q) => {
            *bits = bits_of(q);
            *wholes = wholes_of(q);
            0
        }
    }
}
