#![tactic(auto)]

mod access;
mod call;
mod calls;
mod code;
mod ends;
mod machine;
mod making;
mod perform;
mod position;
mod requests;
mod rests;
mod run;
mod steps;
mod ticks;
mod turns;

pub use requests::Rehearsal;
pub use run::Run;
