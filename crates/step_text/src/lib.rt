#![tactic(auto)]

mod step;

pub use step::{ProgramLine, Role, StepLine};
