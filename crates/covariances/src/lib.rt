// The estimates of a covariance, the intensity of Ledoit and Wolf, and the adjustments. There is no heap: what a function reckons in is an array of
// the largest size, of which it lends the part that it needs.
#![tactic(auto)]

pub mod adjusted;
pub mod base;
pub mod decay;
pub mod ledoit_wolf;
pub mod sample;
mod semi;
mod targets;
pub mod weighted;
