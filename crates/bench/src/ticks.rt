ghost use Rattle.std.specs.Prelude.{◌≡◌, ℕ, ◌+◌, ◌*◌, ◌<◌, ◌≤◌, false, length};
ghost use Rattle.netcode.specs.Layouts.{programs_of};
ghost use Rattle.semantics.specs.Machine.{limit, of_the_run, parts, tick};
ghost use Rattle.bench.specs.Quiet.{Quiet};
ghost use Rattle.bench.specs.Shown.{world, outcome, Room, Counted};

use crate::code::Code;
use crate::machine::Machine;
use fault::{Fault, Refusal, TickPlace};
use plant::Plant;

// Most ticks that a run grants.
const LIMIT: u32 = 16777215;

// A refusal for what the run has been through.
fn of_the_run(refusal: Refusal) -> Fault<TickPlace>
    ensures { result ≡ of_the_run refusal }
{
    Fault {
        refusal,
        place: TickPlace::Run,
    }
}

impl Machine {
    // Both parts of a tick. The clock is one tick on in the second.
    fn parts<P: Plant>(&mut self, code: Code<'_>, plant: &mut P) -> Result<(), Fault<TickPlace>>
        requires { Room self.old.state 0 }
        ensures { outcome result (world self.new.state (P.meaning plant.new)) ≡ parts P.model (programs_of code.entry.layout.now code.entry.steps.now) (world self.old.state (P.meaning plant.old)) }
    {
        let clock = self.state.granted + 1;
        self.first_part(code, plant)?;
        self.second_part::<P>(clock, code.count())?;
        self.free_line::<P>(clock);
        Ok(())
    }

    // A tick tries 19, 18, then the rest. Where all rest, only the clock moves. A refused one is not counted, and stops the run.
    pub(crate) fn tick<P: Plant>(
        &mut self,
        code: Code<'_>,
        plant: &mut P,
    ) -> Result<(), Fault<TickPlace>>
        requires counted { Counted self.old.state }
        requires quiet { Quiet self.old.quiet self.old.state }
        ensures quiet { Quiet self.new.quiet self.new.state }
        ensures outcome { outcome result (world self.new.state (P.meaning plant.new)) ≡ tick P.model (programs_of code.entry.layout.now code.entry.steps.now) (world self.old.state (P.meaning plant.old)) }
    {
        if self.state.stopped {
            return Err(of_the_run(Refusal::Stopped));
        }
        if self.state.granted >= LIMIT {
            return Err(of_the_run(Refusal::LimitReached));
        }
        let granted = self.state.granted;
        if granted + 1 < self.quiet {
            self.state.granted = granted + 1;
            return Ok(());
        }
        match self.parts(code, plant) {
            Err(fault) => {
                self.state.stopped = true;
                self.quiet = 0;
                Err(fault)
            }
            Ok(()) => {
                self.state.granted = granted + 1;
                self.quiet = self.rests();
                Ok(())
            }
        }
    }
}
