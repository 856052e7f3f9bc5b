#![tactic(auto)]

mod laws;
mod promise;
mod state;
mod worked;

pub use laws::laws_stand;
pub use promise::run_promise_stands;
pub use state::{Job, Mark, Message, Reply, Request, State, UnitState};
pub use worked::worked_cases;
