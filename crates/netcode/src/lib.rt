#![tactic(auto)]

mod laws;
mod layout;
mod rules;
mod step;
#[cfg(test)]
mod tests;

pub use laws::{programs_numbered, rules_stand};
pub use layout::{Programs, check, line_program, program_count, station_of, work_program};
pub use rules::check_program;
pub use step::{Layout, Step};
