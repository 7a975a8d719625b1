// What a call looks at before it computes: shapes and lengths, entries, the sweep limit, and a given matrix.
#![tactic(auto)]

pub mod checks;
pub mod entries;
pub mod given;
pub mod limits;
pub mod shapes;
