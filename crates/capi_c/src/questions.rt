// Question files written and read, with C linkage (include/engine.h).
ghost use Rattle.std.specs.Prelude.{◌≡◌};
ghost use Rattle.capi.specs.Report as Reports;
ghost use Rattle.capi.specs.Record as Records;
ghost use Rattle.capi.specs.Questions as Questions;

// Bits and a limit are read where their kind has them.
#[unsafe(no_mangle)]
pub extern "C" fn engine_write_question(
    assets: usize,
    periods: usize,
    returns: &[u64],
    estimate: u32,
    estimate_bits: u64,
    shrinkage: u32,
    shrinkage_bits: u64,
    regularization: u32,
    regularization_bits: u64,
    given: &[u64],
    has_limit: u32,
    limit: usize,
    question: u32,
    out: &mut [u8],
    numbers: &mut [f64; 2],
    wholes: &mut [usize; 2],
) -> u32
    ensures { Questions.left_file (Reports.handed result numbers.new wholes.new) out.new ≡ Questions.engine_write_question (Records.known_question estimate shrinkage regularization has_limit question) (Records.question_from assets periods estimate estimate_bits shrinkage shrinkage_bits regularization regularization_bits has_limit limit question) returns.now given.now out.old }
{
    capi::questions::engine_write_question(
        assets,
        periods,
        returns,
        estimate,
        estimate_bits,
        shrinkage,
        shrinkage_bits,
        regularization,
        regularization_bits,
        given,
        has_limit,
        limit,
        question,
        out,
        numbers,
        wholes,
    )
}

#[unsafe(no_mangle)]
pub extern "C" fn engine_read_question(
    file: &[u8],
    returns: &mut [u64],
    given: &mut [u64],
    bits: &mut [u64; 3],
    wholes: &mut [usize; 8],
) -> u32
    ensures { Questions.left_record result returns.new given.new bits.new wholes.new ≡ Questions.engine_read_question file.now returns.old given.old bits.old wholes.old }
{
    capi::questions::engine_read_question(file, returns, given, bits, wholes)
}
