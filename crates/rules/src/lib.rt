// The records of documents 01 and 02 that cross a call, and the limits of periods.
#![tactic(auto)]

ghost use Rattle.std.specs.Prelude.{◌≡◌};
ghost use Rattle.rules.specs.Adjusted as Adjusted;

mod refusals;
pub mod targets;

// The fewest and the most periods of a return matrix: the definitions' `min_periods` and `max_periods`.
pub const MIN_PERIODS: usize = 2;

pub const MAX_PERIODS: usize = 4096;

// How weights fall with age: the periods in which one halves, or the factor of each period.
#[derive(Clone, Copy)]
pub enum Decay<T> {
    HalfLife(T),
    Lambda(T),
}

// The weighted case carries its decay, and the case below a threshold the threshold.
#[derive(Clone, Copy)]
pub enum Estimate<T> {
    Sample,
    Given,
    Weighted(Decay<T>),
    Semi,
    SemiBelow(T),
}

impl<T: Copy> Estimate<T> {
    pub fn is_given(self) -> bool
        ensures { result ≡ Adjusted.is_given self }
    {
        matches!(self, Estimate::Given)
    }
}

// What a covariance is shrunk to: its average variance on the diagonal, or its variances with their average correlation.
#[derive(Clone, Copy)]
pub enum Target {
    ConstantVariance,
    ConstantCorrelation,
}

// None, a fixed intensity towards constant variance, or the intensity of Ledoit and Wolf.
#[derive(Clone, Copy)]
pub enum Shrinkage<T> {
    Unshrunk,
    Fixed(T),
    LedoitWolf(Target),
}

// A ridge is added to each variance.
// Not an Option: the case says what its number is.
#[derive(Clone, Copy)]
pub enum Regularization<T> {
    Unregularized,
    Ridge(T),
}

// The sweep limit is that of a given matrix's decomposition.
#[derive(Clone, Copy)]
pub struct Settings {
    pub estimate: Estimate<f64>,
    pub shrinkage: Shrinkage<f64>,
    pub regularization: Regularization<f64>,
    pub limit: usize,
}

// The setting that refusal 7 names, by its number.
#[derive(Clone, Copy)]
pub enum Field {
    RegularizationField = 1,
    ShrinkageField = 2,
    HalfLifeField = 3,
    ThresholdField = 4,
    SweepLimitField = 5,
    DecayFactorField = 6,
}

// Each with what is returned with it: a count of periods, a row and a column, a setting, a column, a side, an eigenvalue.
#[derive(Clone, Copy)]
pub enum Refusal {
    NoAssets,
    TooLarge,
    TooFewPeriods(usize),
    WrongLength,
    NotFinite(usize, usize),
    CovarianceNotFinite,
    BadSetting(Field),
    NotTheSample,
    ZeroVariance(usize),
    WrongSide(usize),
    Asymmetric(usize, usize),
    Indefinite(f64),
    NotDecomposed,
    Singular,
    NonPositivePrice(usize, usize),
}

// What is returned with a refusal.
#[derive(Clone, Copy)]
pub enum Detail {
    Nothing,
    Only(usize),
    // a row and a column
    Entry(usize, usize),
    Value(f64),
}

// What a call that refuses nothing returns, beside the numbers in its slice.
#[derive(Clone, Copy)]
pub enum Answer {
    // intensity, sweeps, rotations
    Covariance(f64, usize, usize),
    Intensity(f64),
    Mean,
    // intensity, target, sweeps, rotations
    Shrunk(f64, f64, usize, usize),
}
