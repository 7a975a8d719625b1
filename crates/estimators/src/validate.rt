// The checks of the settings, refusals 7 and 8 (covariance.rs, `validate`).
ghost use Rattle.std.specs.Prelude.{◌≡◌};
ghost use Rattle.rules.specs.Adjusted as Adjusted;
ghost use Rattle.rules.specs.Order as Order;
ghost use Rattle.inputs.specs.Checks.{checked};

use covariances::decay::bad_decay;
use inputs::checks::when;
use rules::{Estimate, Field, Refusal, Regularization, Shrinkage};

fn is_sample(estimate: Estimate<f64>) -> bool
    ensures { result ≡ Adjusted.is_sample estimate }
{
    matches!(estimate, Estimate::Sample)
}

// Finite and at least 0, as -0 is.
pub(crate) fn bad_regularization(regularization: Regularization<f64>) -> Result<(), Refusal>
    ensures { checked result ≡ Order.bad_regularization regularization }
{
    match regularization {
        Regularization::Unregularized => Ok(()),
        Regularization::Ridge(ridge) => {
            let good = leaves::numbers::is_finite(ridge) && 0.0 <= ridge;
            when(!good, Refusal::BadSetting(Field::RegularizationField))
        }
    }
}

// In [0, 1].
pub(crate) fn bad_shrinkage(shrinkage: Shrinkage<f64>) -> Result<(), Refusal>
    ensures { checked result ≡ Order.bad_shrinkage shrinkage }
{
    match shrinkage {
        Shrinkage::Unshrunk | Shrinkage::LedoitWolf(_) => Ok(()),
        Shrinkage::Fixed(intensity) => {
            let good = 0.0 <= intensity && intensity <= 1.0;
            when(!good, Refusal::BadSetting(Field::ShrinkageField))
        }
    }
}

// Refusal 7 for fields 3, 6 and 4: the decay accepted, the threshold finite.
pub(crate) fn bad_estimate(estimate: Estimate<f64>) -> Result<(), Refusal>
    ensures { checked result ≡ Order.bad_estimate estimate }
{
    match estimate {
        Estimate::Sample | Estimate::Given | Estimate::Semi => Ok(()),
        Estimate::Weighted(decay) => bad_decay(decay),
        Estimate::SemiBelow(threshold) => when(
            !leaves::numbers::is_finite(threshold),
            Refusal::BadSetting(Field::ThresholdField),
        ),
    }
}

// Ledoit-Wolf with another estimate.
pub(crate) fn not_the_sample(
    shrinkage: Shrinkage<f64>,
    estimate: Estimate<f64>,
) -> Result<(), Refusal>
    ensures { checked result ≡ Order.not_the_sample shrinkage estimate }
{
    match shrinkage {
        Shrinkage::Unshrunk | Shrinkage::Fixed(_) => Ok(()),
        Shrinkage::LedoitWolf(_) => when(!is_sample(estimate), Refusal::NotTheSample),
    }
}
