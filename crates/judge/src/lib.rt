#![tactic(auto)]

mod availability;
mod breach;
mod condition;
mod fields;
mod need;
mod pairs;
mod verdict;

pub use fields::is_listener;
pub use verdict::{judge, verdict_stands, worked_verdicts};

#[cfg(test)]
mod tests;
