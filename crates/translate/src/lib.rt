#![tactic(auto)]

mod blocks;
mod code;
mod each_date;
mod fill;
mod laws;
mod opening;
mod program;
mod put;
mod row;
mod sizes;
mod stage;
mod worked;

pub use laws::{programs_lawful, turns_stand};
pub use stage::{Translated, translate};
pub use worked::worked_programs;

#[cfg(test)]
mod tests;
