// The engine over flat numbers and slices; `capi_c` gives it C linkage.
#![tactic(auto)]

pub mod calls;
pub mod exam;
pub mod questions;
mod record;
mod report;
pub mod returns;
mod settings;
