#![tactic(auto)]

mod place;
mod refusal;
mod scan;

pub use place::{
    AskedPlace, BytesPlace, FitPlace, Offset, Place, RowPlace, StepPlace, TickPlace, WorkPlace,
};
pub use refusal::{Fault, Refusal};
pub use scan::{Rule, first_bad};
