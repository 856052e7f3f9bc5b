#![tactic(auto)]

mod mark;

pub use mark::{MarkLine, MarkText, WordText};
