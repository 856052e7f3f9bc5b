ghost use Rattle.std.specs.Prelude.{◌≡◌};
ghost use Rattle.semantics.specs.Machine.{performed};
ghost use Rattle.bench.specs.Shown.{world, stepped_to, Fits, Room};

use crate::call::Call;
use crate::machine::Machine;
use crate::position::Position;
use fault::{Fault, TickPlace};
use netcode::Step;
use plant::Plant;

impl Machine {
    // Performs a step, and answers the next address, or nothing at HALT.
    pub(crate) fn perform<P: Plant>(
        &mut self,
        at: Position,
        step: Step,
        plant: &mut P,
    ) -> Result<Option<u32>, Fault<TickPlace>>
        requires fields { Fits step }
        requires room { Room self.old.state at.program.number }
        ensures { stepped_to result (world self.new.state (P.meaning plant.new)) ≡ performed P.model step at.program.number at.address (world self.old.state (P.meaning plant.old)) }
    {
        match step {
            Step::Test {
                variable,
                relation,
                word,
                address: to,
            } => self.test::<P>(at, variable, relation, word, to),
            Step::Future { ticks, address: to } => {
                self.future(at.program, ticks, to);
                Ok(Some(at.next()))
            }
            Step::Halt => Ok(None),
            Step::Call {
                row,
                work,
                inputs,
                output,
                duration,
            } => self.call(
                at,
                Call {
                    row,
                    work,
                    inputs,
                    output,
                    duration,
                },
                plant,
            ),
            Step::Send {
                row,
                variable,
                duration,
            } => self.send::<P>(at, row, variable, duration),
            Step::Receive { variable, duration } => { self.receive::<P>(at, variable, duration) }
            Step::Keep { variable, cell } => {
                self.keep::<P>(at.program, variable, cell);
                Ok(Some(at.next()))
            }
            Step::Clear => {
                self.clear(at.program);
                Ok(Some(at.next()))
            }
            Step::Give {
                cell,
                variable,
                word,
            } => {
                self.give(at.program, cell, variable, word);
                Ok(Some(at.next()))
            }
        }
    }
}
