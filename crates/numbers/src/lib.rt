// Number columns, and the comparator of two of them.
#![tactic(auto)]

pub mod column;
mod eight;
mod lanes;
pub mod numbers;
mod pairs;
mod reading;
