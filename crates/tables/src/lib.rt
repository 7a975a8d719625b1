// Sums over the periods of a return matrix: rows formed of its returns, column sums, tables of products, and powers of two by column.
#![tactic(auto)]

pub mod columns;
pub mod gram;
pub mod powers;
pub mod returns;
pub mod rows;
pub mod scales;
mod tables;
pub mod vectors;
