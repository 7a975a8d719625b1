// The numbers of the refusals and what is returned with each (document 01, "Causes"; document 02).
ghost use Rattle.std.specs.Prelude.{◌≡◌};
ghost use Rattle.rules.specs.Refusals as Refusals;

use crate::{Detail, Refusal};

impl Refusal {
    pub fn number(self) -> u32
        ensures { result ≡ Refusals.number self }
    {
        match self {
            Refusal::NoAssets => 1,
            Refusal::TooLarge => 2,
            Refusal::TooFewPeriods(_) => 3,
            Refusal::WrongLength => 4,
            Refusal::NotFinite(_, _) => 5,
            Refusal::CovarianceNotFinite => 6,
            Refusal::BadSetting(_) => 7,
            Refusal::NotTheSample => 8,
            Refusal::ZeroVariance(_) => 9,
            Refusal::WrongSide(_) => 10,
            Refusal::Asymmetric(_, _) => 11,
            Refusal::Indefinite(_) => 12,
            Refusal::NotDecomposed => 13,
            Refusal::Singular => 14,
            Refusal::NonPositivePrice(_, _) => 16,
        }
    }

    pub fn detail(self) -> Detail
        ensures { result ≡ Refusals.detail self }
    {
        match self {
            Refusal::NoAssets => Detail::Nothing,
            Refusal::TooLarge => Detail::Nothing,
            Refusal::TooFewPeriods(periods) => Detail::Only(periods),
            Refusal::WrongLength => Detail::Nothing,
            Refusal::NotFinite(row, column) => Detail::Entry(row, column),
            Refusal::CovarianceNotFinite => Detail::Nothing,
            Refusal::BadSetting(field) => Detail::Only(field as usize),
            Refusal::NotTheSample => Detail::Nothing,
            Refusal::ZeroVariance(column) => Detail::Only(column),
            Refusal::WrongSide(side) => Detail::Only(side),
            Refusal::Asymmetric(row, column) => Detail::Entry(row, column),
            Refusal::Indefinite(value) => Detail::Value(value),
            Refusal::NotDecomposed => Detail::Nothing,
            Refusal::Singular => Detail::Nothing,
            Refusal::NonPositivePrice(row, column) => Detail::Entry(row, column),
        }
    }
}
