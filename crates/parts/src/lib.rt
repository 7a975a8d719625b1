// The engine's parts with C linkage, for whoever compares them: the float leaves and the decomposition.
#![tactic(auto)]

pub mod jacobi;
pub mod leaf;
