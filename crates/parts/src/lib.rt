// What columns of every kind share: which rows are valid, and parts of the data.
#![tactic(auto)]

pub mod part;
pub mod validity;
