#![tactic(auto)]

mod listeners;
mod refused;
mod row;

pub use refused::RefusedLine;
pub use row::{Column, FoundLine, HeadLine, InputsText, RowLine};
