#![tactic(auto)]

// Which rows give options at each length, made once a call, and how many bytes each group takes.
pub mod plan;
mod ready;
mod sizes;

pub use plan::Plan;
pub use ready::prepare;
pub use sizes::own_count;

// The most rows.
pub const ROWS: usize = 256;

// How many lengths there are, from 0 on.
pub const LENGTHS: usize = 61;

// The words of a plan's table: four for each row, and four for each length.
pub const WORDS: usize = 4 * (ROWS + LENGTHS);
