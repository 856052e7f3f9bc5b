#![tactic(auto)]

mod decode;
mod encode;
mod file;
mod laws;
mod load;
mod save;
#[cfg(test)]
mod tests;

pub use decode::read_step;
pub use file::read;
pub use laws::files_stand;
pub use save::write;
