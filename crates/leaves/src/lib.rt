// The float leaves of documents 01 and 02: each is equal, for every input, to a definition of specs/.
#![tactic(auto)]

pub mod exponential;
pub mod logarithm;
pub mod numbers;
pub mod root;
pub mod scaling;
pub mod sums;
