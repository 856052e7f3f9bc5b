ghost use Rattle.std.specs.Prelude.{◌≡◌, ◌≤◌, length};
ghost use Rattle.netcode.specs.Layouts.{station_of};
ghost use Rattle.semantics.specs.Machine.{tick};
ghost use Rattle.semantics.specs.Requests.{word_reply, mark_at_reply};
ghost use Rattle.bench.specs.Shown.{outcome};
ghost use Rattle.bench.specs.Runs.{programs_in, world_in, SamePrograms, word_answer, mark_answer};

use crate::code::Code;
use crate::run::Run;
use fault::{AskedPlace, Fault, Refusal, TickPlace};
use plant::Plant;
use semantics::Mark;

// The fault of a place that the run does not have.
fn outside(place: AskedPlace) -> Fault<AskedPlace>
    ensures { result ≡ record { refusal = Refusal.Outside; place = place } }
{
    Fault {
        refusal: Refusal::Outside,
        place,
    }
}

impl Run {
    // Makes a tick. Refused, it is not counted, keeps what its earlier steps did, and stops the run; 18 and 19 touch
    // nothing.
    pub fn tick<P: Plant>(&mut self, plant: &mut P) -> Result<(), Fault<TickPlace>>
        ensures outcome { outcome result (world_in self.new (P.meaning plant.new)) ≡ tick P.model (programs_in self.old) (world_in self.old (P.meaning plant.old)) }
        ensures programs { SamePrograms self.old self.new }
    {
        let code = Code {
            layout: &self.layout,
            steps: self.steps.as_slice(),
        };
        self.machine.tick(code, plant)
    }

    // How many stations the run has.
    fn stations(&self) -> u32
        ensures count { result ≡ station_of (length (programs_in self.now)) }
        ensures few { result ≤ 8 }
    {
        self.layout.stations.min(8)
    }

    // The word that a station has in a variable, or nothing.
    pub fn word_at(&self, station: u32, variable: u32) -> Result<Option<u32>, Fault<AskedPlace>>
        ensures { word_answer result ≡ word_reply (station_of (length (programs_in self.now))) self.now.machine.state station variable }
    {
        if station < self.stations() && variable < 64 {
            Ok(self.machine.state.places[(64 * station + variable) as usize])
        } else {
            Err(outside(AskedPlace::Word { station, variable }))
        }
    }

    // The mark of a row.
    pub fn mark_at(&self, row: u32) -> Result<Mark, Fault<AskedPlace>>
        ensures { mark_answer result ≡ mark_at_reply self.now.machine.state row }
    {
        if row < 128 {
            Ok(self.machine.state.marks[row as usize])
        } else {
            Err(outside(AskedPlace::Mark { row }))
        }
    }
}
