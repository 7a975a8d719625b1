// The float leaves with C linkage, each as it stands in `leaves`.
ghost use Rattle.std.specs.Prelude.{◌≡◌, length};
ghost use Rattle.leaves.specs.Numbers as Numbers;
ghost use Rattle.leaves.specs.Loops as Loops;
ghost use Rattle.leaves.specs.Scaling as Scaling;
ghost use Rattle.leaves.specs.Root as Root;
ghost use Rattle.leaves.specs.Exp as Exp;
ghost use Rattle.leaves.specs.Log as Log;

#[unsafe(no_mangle)]
pub extern "C" fn leaf_is_finite(x: f64) -> bool
    ensures { result ≡ Numbers.is_finite x }
{
    leaves::numbers::is_finite(x)
}

#[unsafe(no_mangle)]
pub extern "C" fn leaf_abs(x: f64) -> f64
    ensures { result ≡ Numbers.abs x }
{
    leaves::numbers::abs(x)
}

#[unsafe(no_mangle)]
pub extern "C" fn leaf_signum(x: f64) -> f64
    ensures { result ≡ Numbers.signum x }
{
    leaves::numbers::signum(x)
}

#[unsafe(no_mangle)]
pub extern "C" fn leaf_larger(first: f64, second: f64) -> f64
    ensures { result ≡ Numbers.larger first second }
{
    leaves::numbers::larger(first, second)
}

#[unsafe(no_mangle)]
pub extern "C" fn leaf_smaller(first: f64, second: f64) -> f64
    ensures { result ≡ Numbers.smaller first second }
{
    leaves::numbers::smaller(first, second)
}

#[unsafe(no_mangle)]
pub extern "C" fn leaf_min0(y: f64) -> f64
    ensures { result ≡ Numbers.min0 y }
{
    leaves::numbers::min0(y)
}

#[unsafe(no_mangle)]
pub extern "C" fn leaf_max0(y: f64) -> f64
    ensures { result ≡ Numbers.max0 y }
{
    leaves::numbers::max0(y)
}

#[unsafe(no_mangle)]
pub extern "C" fn leaf_clamp01(y: f64) -> f64
    ensures { result ≡ Numbers.clamp01 y }
{
    leaves::numbers::clamp01(y)
}

#[unsafe(no_mangle)]
pub extern "C" fn leaf_binary_exponent(x: f64) -> i32
    ensures { result ≡ Scaling.binary_exponent x }
{
    leaves::scaling::binary_exponent(x)
}

#[unsafe(no_mangle)]
pub extern "C" fn leaf_pow2_scaled(x: f64, k: i32) -> f64
    ensures { result ≡ Scaling.pow2_scaled x k }
{
    leaves::scaling::pow2_scaled(x, k)
}

#[unsafe(no_mangle)]
pub extern "C" fn leaf_sqrt(x: f64) -> f64
    ensures { result ≡ Root.sqrt x }
{
    leaves::root::sqrt(x)
}

#[unsafe(no_mangle)]
pub extern "C" fn leaf_exp(y: f64) -> f64
    ensures { result ≡ Exp.exp y }
{
    leaves::exponential::exp(y)
}

#[unsafe(no_mangle)]
pub extern "C" fn leaf_exp_m1(y: f64) -> f64
    ensures { result ≡ Exp.exp_m1 y }
{
    leaves::exponential::exp_m1(y)
}

#[unsafe(no_mangle)]
pub extern "C" fn leaf_ln(x: f64) -> f64
    ensures { result ≡ Log.ln x }
{
    leaves::logarithm::ln(x)
}

#[unsafe(no_mangle)]
pub extern "C" fn leaf_sum(xs: &[f64]) -> f64
    ensures { result ≡ Loops.sum_to (length xs.now) (Loops.nth xs.now) }
{
    leaves::sums::sum(xs)
}

#[unsafe(no_mangle)]
pub extern "C" fn leaf_amax(xs: &[f64]) -> f64
    ensures { result ≡ Loops.amax_to (length xs.now) (Loops.nth xs.now) }
{
    leaves::sums::amax(xs)
}
