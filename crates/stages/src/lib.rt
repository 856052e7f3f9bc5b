#![tactic(auto)]

mod stage;

pub use stage::{Accepted, Draft};

#[cfg(test)]
mod tests;
