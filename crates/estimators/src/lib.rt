// The five calls of document 01.
#![tactic(auto)]

pub mod calls;
mod covariance;
mod expected_returns;
mod opening;
mod validate;
