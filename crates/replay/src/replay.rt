// One stored answer: its call is made again, and what comes back is held to what is stored.
use crate::input;
use capi::calls;
use capi::returns::engine_returns_from_prices;
use std::io;
use std::io::Read;

#[derive(Drop)]
pub(crate) struct Outcome {
    pub number: u32,
    pub same: bool,
}

// The calls by their stored numbers, 0 to 6. Of the last the returns are prices, and the periods their rows.
enum Call {
    AdjustedCovariance,
    LedoitWolf,
    WeightedMean,
    JamesSteinMean,
    BayesSteinMean,
    WeightedMeanByFactor,
    ReturnsFromPrices,
}

// A number past the last is taken for 4.
impl From<u32> for Call {
    fn from(number: u32) -> Call {
        match number {
            0 => Call::AdjustedCovariance,
            1 => Call::LedoitWolf,
            2 => Call::WeightedMean,
            3 => Call::JamesSteinMean,
            5 => Call::WeightedMeanByFactor,
            6 => Call::ReturnsFromPrices,
            _ => Call::BayesSteinMean,
        }
    }
}

// Room for 8 assets and 32 periods, with some more for lengths that are wrong.
const MOST_RETURNS: usize = 260;

const MOST_ENTRIES: usize = 84;

// What the answer slice and the report's two numbers hold before a call. The stored answers were made with such an answer slice.
const UNTOUCHED: f64 = 7.5;

// The same bits, or NaN both.
fn same(x: f64, y: f64) -> bool {
    if x.is_nan() || y.is_nan() {
        return x.is_nan() && y.is_nan();
    }
    x.to_bits() == y.to_bits()
}

// What a call is asked of its returns, and what comes back but for its number.
#[derive(Drop)]
struct Asked<'a> {
    returns: &'a [f64],
    assets: usize,
    periods: usize,
    answer: &'a mut [f64],
    numbers: [f64; 2],
    wholes: [usize; 2],
}

impl<'a> Asked<'a> {
    // The given matrix comes last.
    fn adjusted_covariance(
        &mut self,
        reader: &mut impl Read,
        given: &mut [f64],
    ) -> io::Result<u32> {
        let estimate = input::kind(reader)?;
        let x = input::float(reader)?;
        let shrinkage = input::kind(reader)?;
        let y = input::float(reader)?;
        let regularization = input::kind(reader)?;
        let z = input::float(reader)?;
        let limit = input::whole(reader)?;
        let side = input::whole(reader)?;
        input::fill(reader, given)?;
        Ok(calls::engine_adjusted_covariance(
            self.returns,
            self.assets,
            self.periods,
            estimate,
            x,
            shrinkage,
            y,
            regularization,
            z,
            limit,
            given,
            side,
            self.answer,
            &mut self.numbers,
            &mut self.wholes,
        ))
    }

    fn made(&mut self, reader: &mut impl Read) -> io::Result<u32> {
        let call = Call::from(input::kind(reader)?);
        Ok(match call {
            Call::AdjustedCovariance => {
                let n = input::length(reader, MOST_ENTRIES)?;
                let mut given = [0.0; MOST_ENTRIES];
                self.adjusted_covariance(reader, &mut given[..n])?
            }
            Call::LedoitWolf => {
                let target = input::kind(reader)?;
                calls::engine_ledoit_wolf(
                    self.returns,
                    self.assets,
                    self.periods,
                    target,
                    &mut self.numbers,
                    &mut self.wholes,
                )
            }
            Call::WeightedMean => {
                let half_life = input::float(reader)?;
                calls::engine_weighted_mean(
                    self.returns,
                    self.assets,
                    self.periods,
                    half_life,
                    self.answer,
                    &mut self.numbers,
                    &mut self.wholes,
                )
            }
            Call::JamesSteinMean => {
                let limit = input::whole(reader)?;
                calls::engine_james_stein_mean(
                    self.returns,
                    self.assets,
                    self.periods,
                    limit,
                    self.answer,
                    &mut self.numbers,
                    &mut self.wholes,
                )
            }
            Call::BayesSteinMean => {
                let limit = input::whole(reader)?;
                calls::engine_bayes_stein_mean(
                    self.returns,
                    self.assets,
                    self.periods,
                    limit,
                    self.answer,
                    &mut self.numbers,
                    &mut self.wholes,
                )
            }
            Call::WeightedMeanByFactor => {
                let factor = input::float(reader)?;
                calls::engine_weighted_mean_by_factor(
                    self.returns,
                    self.assets,
                    self.periods,
                    factor,
                    self.answer,
                    &mut self.numbers,
                    &mut self.wholes,
                )
            }
            Call::ReturnsFromPrices => engine_returns_from_prices(
                self.returns,
                self.assets,
                self.periods,
                self.answer,
                &mut self.numbers,
                &mut self.wholes,
            ),
        })
    }

    fn same_report(&self, reader: &mut impl Read, number: u32) -> io::Result<bool> {
        let k = input::kind(reader)?;
        let x = input::float(reader)?;
        let y = input::float(reader)?;
        let i = input::whole(reader)?;
        let j = input::whole(reader)?;
        Ok(
            k == number
                && same(x, self.numbers[0])
                && same(y, self.numbers[1])
                && [i, j] == self.wholes,
        )
    }

    fn same_slice(&self, reader: &mut impl Read) -> io::Result<bool> {
        let mut equal = true;
        for x in self.answer.iter() {
            let y = input::float(reader)?;
            equal &= same(*x, y);
        }
        Ok(equal)
    }

    fn compared(&mut self, reader: &mut impl Read) -> io::Result<Outcome> {
        let number = self.made(reader)?;
        let report = self.same_report(reader, number)?;
        let slice = self.same_slice(reader)?;
        Ok(Outcome {
            number,
            same: report && slice,
        })
    }
}

pub(crate) fn one(reader: &mut impl Read) -> io::Result<Outcome> {
    let n = input::length(reader, MOST_RETURNS)?;
    let mut returns = [0.0; MOST_RETURNS];
    input::fill(reader, &mut returns[..n])?;
    let assets = input::whole(reader)?;
    let periods = input::whole(reader)?;
    let m = input::length(reader, MOST_ENTRIES)?;
    let mut answer = [UNTOUCHED; MOST_ENTRIES];
    let mut asked = Asked {
        returns: &returns[..n],
        assets,
        periods,
        answer: &mut answer[..m],
        numbers: [UNTOUCHED; 2],
        wholes: [7; 2],
    };
    asked.compared(reader)
}
