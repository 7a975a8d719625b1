// The engine with C linkage: one export for each function of `capi`, with its clauses. The header is include/engine.h.
#![tactic(auto)]

pub mod calls;
pub mod exam;
pub mod questions;
pub mod returns;
