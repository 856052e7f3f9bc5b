ghost use Rattle.std.specs.Prelude.{◌≡◌, length, Some, None, MatchResult};
ghost use Rattle.netcode.specs.Layouts.{programs_of};
ghost use Rattle.netcode.specs.Rules.{first_broken};
ghost use Rattle.semantics.specs.Machine.{new_state};

use crate::machine::Machine;
use crate::run::Run;
use fault::{Fault, StepPlace};
use netcode::{Layout, Step, check};
use semantics::{Job, Mark, State, UnitState};

impl Machine {
    // At making all places and cells are empty, and every unit is due at address 0.
    fn new() -> Machine
        ensures state { result.state ≡ new_state }
        ensures quiet { result.quiet ≡ 0 }
    {
        Machine {
            state: State {
                places: [None; 512],
                cells: [None; 16],
                marks: [Mark {
                    count: 0,
                    tick: 0,
                    first: None,
                    second: None,
                    given: None,
                }; 128],
                units: [UnitState {
                    timer: Some(0),
                    address: 0,
                    job: Job::Idle,
                }; 16],
                line: None,
                granted: 0,
                stopped: false,
            },
            quiet: 0,
        }
    }
}

impl Run {
    // Makes a run of programs, or is refused 13 where they break the rules, and hands back what it was given.
    pub fn make(
        layout: Layout,
        steps: Vec<Step>,
    ) -> Result<Run, (Layout, Vec<Step>, Fault<StepPlace>)>
        ensures { MatchResult result (λ run. (first_broken 0 (programs_of layout steps.items) ≡ None) × (run.layout ≡ layout) × (run.steps ≡ steps) × (run.machine.state ≡ new_state)) (λ back. (first_broken 0 (programs_of layout steps.items) ≡ Some back.2) × (back.0 ≡ layout) × (back.1 ≡ steps)) }
    {
        if let Some(fault) = check(&layout, steps.as_slice()) {
            return Err((layout, steps, fault));
        }
        Ok(Run {
            layout,
            steps,
            machine: Machine::new(),
        })
    }
}
