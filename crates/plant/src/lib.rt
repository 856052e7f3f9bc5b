#![tactic(auto)]

mod fit;
mod order;
mod panel;
mod reckoner;
mod script;
#[cfg(test)]
mod tests;
mod works;

pub use fit::fit_rows;
pub use order::order_stands;
pub use panel::Panel;
pub use reckoner::Reckoner;
pub use script::{Script, scripts_stand};
pub use works::{Plant, Words};
