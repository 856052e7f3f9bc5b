#![tactic(auto)]

mod borrowed;
mod parts;
mod reading;
mod row;
mod writing;

pub use borrowed::{RowBytes, read_row};
pub use parts::{read_inputs, read_relation, strange};
pub use reading::{head_outside, read, sheets_stand, too_short};
pub use row::{Call, Condition, Head, Inputs, Keep, Relation, Row, Send, Test};
pub use writing::{write, writing_stands};
