ghost use Rattle.std.specs.Prelude.{◌≡◌};
ghost use Rattle.plant.specs.Laws.{panel_apart};
ghost use Rattle.plant.specs.Panel.{panel, panel_at_first};

use crate::works::{Plant, Words};
use fault::{Fault, WorkPlace};

// A plant with a register for each of eight stations.
#[derive(Clone, Copy)]
pub struct Panel {
    registers: [u32; 8],
}

impl Panel {
    // A panel whose registers are 0.
    pub fn new() -> Panel
        ensures { result.registers ≡ panel_at_first }
    {
        Panel { registers: [0; 8] }
    }
}

impl Plant for Panel {
    ghost model = { panel };

    ghost meaning = { λ p. p.registers };

    ghost apart = { panel_apart };

    fn knows(&self, station: u32, work: u32, count: u32) -> bool {
        station < 8 && matches!((work, count), (10, 0) | (11, 1))
    }

    fn perform(&mut self, station: u32, work: u32, inputs: Words) -> Result<u32, Fault<WorkPlace>> {
        self.admit(station, work, inputs)?;
        let old = self.registers[station as usize];
        if work == 11 {
            self.registers[station as usize] = inputs.first();
        }
        Ok(old)
    }
}
