// The James-Stein and the Bayes-Stein mean, from the moments of the returns.
#![tactic(auto)]

pub mod bayes_stein;
mod forms;
pub mod gather;
pub mod james_stein;
pub mod moments;
