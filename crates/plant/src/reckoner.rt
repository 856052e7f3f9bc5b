ghost use Rattle.std.specs.Prelude.{◌≡◌};
ghost use Rattle.plant.specs.Laws.{reckoner_apart};
ghost use Rattle.plant.specs.Reckoner.{reckoner, reckoned};

use crate::works::{Plant, Words};
use fault::{Fault, WorkPlace};

// A plant without a state: it copies, adds, compares.
#[derive(Clone, Copy)]
pub struct Reckoner;

// What a known work gives.
fn reckon(work: u32, a: u32, b: u32) -> u32
    ensures { result ≡ reckoned work a b }
{
    match work {
        1 => a,
        2 => a.wrapping_add(b),
        3 => a.min(b),
        4 => u32::from(a == b),
        _ => 1,
    }
}

impl Plant for Reckoner {
    ghost model = { reckoner };

    ghost meaning = { λ _. tt };

    ghost apart = { reckoner_apart };

    fn knows(&self, station: u32, work: u32, count: u32) -> bool {
        station < 8 && matches!((work, count), (1, 1) | (2, 2) | (3, 2) | (4, 2) | (5, 0))
    }

    fn perform(&mut self, station: u32, work: u32, inputs: Words) -> Result<u32, Fault<WorkPlace>> {
        self.admit(station, work, inputs)?;
        Ok(reckon(work, inputs.first(), inputs.second()))
    }
}
