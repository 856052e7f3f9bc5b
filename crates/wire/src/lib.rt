#![tactic(auto)]

mod reader;
mod writer;

pub use reader::Reader;
pub use writer::{
    number_bytes, number_cases, numbers_size, numbers_stand, put_number, put_numbers,
};
