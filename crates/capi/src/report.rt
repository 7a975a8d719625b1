// An answer in numbers (include/engine.h).
ghost use Rattle.std.specs.Prelude.{◌≡◌};
ghost use Rattle.capi.specs.Report as Reports;

use rules::{Answer, Detail, Refusal};

#[derive(Drop)]
pub(crate) struct Report {
    pub number: u32,
    pub numbers: [f64; 2],
    pub wholes: [usize; 2],
}

// What stands in the report for a detail: one or two whole numbers, or a float.
fn first_of(detail: Detail) -> usize
    ensures { result ≡ Reports.first_of detail }
{
    match detail {
        Detail::Only(i) | Detail::Entry(i, _) => i,
        _ => 0,
    }
}

fn second_of(detail: Detail) -> usize
    ensures { result ≡ Reports.second_of detail }
{
    match detail {
        Detail::Entry(_, j) => j,
        _ => 0,
    }
}

fn value_or(otherwise: f64, detail: Detail) -> f64
    ensures { result ≡ Reports.value_or otherwise detail }
{
    match detail {
        Detail::Value(x) => x,
        _ => otherwise,
    }
}

pub(crate) fn refused(refusal: Refusal) -> Report
    ensures { result ≡ Reports.refused refusal }
{
    let with = refusal.detail();
    Report {
        number: refusal.number(),
        numbers: [value_or(0.0, with), 0.0],
        wholes: [first_of(with), second_of(with)],
    }
}

pub(crate) fn reported(number: u32, x: f64, y: f64, i: usize, j: usize) -> Report
    ensures { result ≡ Reports.reported number x y i j }
{
    Report {
        number,
        numbers: [x, y],
        wholes: [i, j],
    }
}

#[tactic(auto, unfolding(crate::specs::Report::report_of))]
pub(crate) fn report_of(told: Result<Answer, Refusal>) -> Report
    ensures { result ≡ Reports.report_of told }
{
    match told {
        Err(refusal) => refused(refusal),
        Ok(Answer::Covariance(intensity, sweeps, rotations)) => {
            reported(0, intensity, 0.0, sweeps, rotations)
        }
        Ok(Answer::Intensity(intensity)) => reported(0, intensity, 0.0, 0, 0),
        Ok(Answer::Mean) => reported(0, 0.0, 0.0, 0, 0),
        Ok(Answer::Shrunk(intensity, target, sweeps, rotations)) => {
            reported(0, intensity, target, sweeps, rotations)
        }
    }
}

// Hands a report out: what is returned is its number.
pub(crate) fn hand_out(report: Report, numbers: &mut [f64; 2], wholes: &mut [usize; 2]) -> u32
    ensures { Reports.handed result numbers.new wholes.new ≡ report }
{
    let Report {
        number,
        numbers: x,
        wholes: i,
    } = report;
    *numbers = x;
    *wholes = i;
    number
}
