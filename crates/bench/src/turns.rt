ghost use Rattle.std.specs.Prelude.{◌≡◌, ℕ, ◌+◌, ◌*◌, ◌^◌, ◌<◌, ◌≤◌, length};
ghost use Rattle.netcode.specs.Layouts.{programs_of};
ghost use Rattle.netcode.specs.Laws.{Lawful};
ghost use Rattle.semantics.specs.Machine.{steps, turn, first_part};
ghost use Rattle.bench.specs.Shown.{world, outcome, Room};

use crate::code::Code;
use crate::machine::Machine;
use crate::position::{Position, Program};
use fault::{Fault, Refusal, TickPlace};
use netcode::Step;
use plant::Plant;

impl Machine {
    // Performs steps from an address up to HALT. An address outside the program halts.
    fn run<P: Plant>(
        &mut self,
        program: Program,
        code: &[Step],
        start: u32,
        plant: &mut P,
    ) -> Result<(), Fault<TickPlace>>
        requires lawful { Lawful code.now }
        requires room { Room self.old.state program.number }
        ensures { outcome result (world self.new.state (P.meaning plant.new)) ≡ steps P.model (length code.now + 1) code.now program.number start (world self.old.state (P.meaning plant.old)) }
    {
        let mut address = start;
        while let Some(step) = code.get(address as usize) {
            match self.perform(Position { program, address }, *step, plant)? {
                None => return Ok(()),
                Some(to) => address = to,
            }
        }
        Ok(())
    }

    // The turn of a program's unit: if it is due while busy it is refused 17; else its timer is spent, and it
    // performs steps.
    fn turn<P: Plant>(
        &mut self,
        program: Program,
        code: &[Step],
        plant: &mut P,
    ) -> Result<(), Fault<TickPlace>>
        requires lawful { Lawful code.now }
        requires room { Room self.old.state program.number }
        ensures { outcome result (world self.new.state (P.meaning plant.new)) ≡ turn P.model code.now program.number (world self.old.state (P.meaning plant.old)) }
    {
        let unit = self.unit(program);
        if unit.timer != Some(self.state.granted) {
            return Ok(());
        }
        if self.is_busy(program) {
            return Err(program.fault(Refusal::UnitBusy, unit.address));
        }
        self.set_timer(program, None, unit.address);
        self.run(program, code, unit.address, plant)
    }

    // The first part of a tick: the units take their turns, rising, and so stations rise, and a station's work
    // unit comes before its line unit.
    pub(crate) fn first_part<P: Plant>(
        &mut self,
        code: Code<'_>,
        plant: &mut P,
    ) -> Result<(), Fault<TickPlace>>
        requires { Room self.old.state 0 }
        ensures { let programs = programs_of code.entry.layout.now code.entry.steps.now in outcome result (world self.new.state (P.meaning plant.new)) ≡ first_part P.model programs (length programs) (world self.old.state (P.meaning plant.old)) }
    {
        for (number, steps) in code.layout.programs(code.steps).enumerate() {
            self.turn(Program { number }, steps, plant)?;
        }
        Ok(())
    }
}
