// Returns from prices (document 02, "Paper 4. Questions in prices"): all prices are looked at, and then the returns are written.
#![tactic(auto)]

pub mod calls;
mod checks;
mod ordinary;
mod returns;
mod shape;

// The fewest and the most rows of prices: the definitions' `min_price_rows` and `max_price_rows`.
const MIN_PRICE_ROWS: usize = 3;

const MAX_PRICE_ROWS: usize = 4097;
