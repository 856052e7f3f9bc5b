#![tactic(auto)]

mod kept;
mod runs;

pub use kept::Kept;
pub use runs::run_sheet;
