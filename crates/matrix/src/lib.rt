// Matrices, row by row, and the decomposition of a symmetric one by Jacobi rotations.
#![tactic(auto)]

mod by_columns;
pub mod entries;
pub mod jacobi;
pub mod places;
pub mod rotation;
pub mod sums;
mod symmetric;
pub mod tables;

// Document 02's largest side of a matrix, and document 01's largest sweep limit.
pub const MAX_SIDE: usize = 24;

pub const MAX_SWEEPS: usize = 100;
