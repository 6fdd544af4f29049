#![tactic(auto)]

// A sheet's records and terms: the faults 16 and 17.
mod rules;
mod tables;
mod terms;

pub use tables::Tables;
