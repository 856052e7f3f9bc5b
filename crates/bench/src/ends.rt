ghost use Rattle.std.specs.Prelude.{◌≡◌, ℕ, ◌+◌, ◌<◌, ◌≤◌, List, Some};
ghost use Rattle.netcode.specs.declared.step.Step.{Step};
ghost use Rattle.netcode.specs.Layouts.{station_of};
ghost use Rattle.semantics.specs.declared.state.Job.TheVariants.{Idle};
ghost use Rattle.semantics.specs.Machine.{unit_in, with_word, with_job, with_line, heard, ended, left, second_part};
ghost use Rattle.bench.specs.Shown.{world, outcome};

use crate::machine::Machine;
use crate::position::Program;
use fault::{Fault, Refusal, TickPlace};
use plant::Plant;
use semantics::Job;

impl Machine {
    // A unit stores a word, and is free.
    fn store(&mut self, program: Program, variable: u32, word: u32)
        ensures { self.new.state ≡ with_job (with_word self.old.state (station_of program.number) variable (Some word)) program.number Idle }
    {
        self.put_word(program, variable, word);
        self.set_job(program, Job::Idle);
    }

    // A listener stores the word of the message that ends with it, or is refused 15 at its own step.
    fn hear<P: Plant>(
        &mut self,
        program: Program,
        clock: u32,
        variable: u32,
        address: u32,
    ) -> Result<(), Fault<TickPlace>>
        ensures { (p : P.model.State) → outcome result (world self.new.state p) ≡ heard P.model self.old.state.line clock program.number variable address (world self.old.state p) }
    {
        match self.state.line {
            Some(message) if message.end == clock => {
                self.store(program, variable, message.word);
                Ok(())
            }
            _ => Err(program.fault(Refusal::NoMessage, address)),
        }
    }

    // What a unit does when the clock has come to a tick: a job that ends then is done.
    fn finish<P: Plant>(&mut self, program: Program, clock: u32) -> Result<(), Fault<TickPlace>>
        ensures { (p : P.model.State) → outcome result (world self.new.state p) ≡ ended P.model (unit_in self.old.state program.number).job clock program.number (world self.old.state p) }
    {
        match self.unit(program).job {
            Job::Store {
                end,
                variable,
                word,
            } if end == clock => {
                self.store(program, variable, word);
                Ok(())
            }
            Job::Carry { end } if end == clock => {
                self.set_job(program, Job::Idle);
                Ok(())
            }
            Job::Listen {
                end,
                variable,
                address,
            } if end == clock => self.hear::<P>(program, clock, variable, address),
            _ => Ok(()),
        }
    }

    // The second part of a tick: the stores that end, in the order of the units.
    pub(crate) fn second_part<P: Plant>(
        &mut self,
        clock: u32,
        count: usize,
    ) -> Result<(), Fault<TickPlace>>
        requires { count ≤ 16 }
        ensures { (programs : List (List Step)) (p : P.model.State) → outcome result (world self.new.state p) ≡ second_part P.model programs clock count (world self.old.state p) }
    {
        // By number: a loop over the machine's own units would hold the machine that each of them changes.
        for number in 0..count {
            self.finish::<P>(Program { number }, clock)?;
        }
        Ok(())
    }

    // A message that ends leaves the line.
    pub(crate) fn free_line<P: Plant>(&mut self, clock: u32)
        ensures { self.new.state ≡ with_line self.old.state (left P.model self.old.state.line clock) }
    {
        if self.state.line.is_some_and(|message| message.end == clock) {
            self.state.line = None;
        }
    }
}
