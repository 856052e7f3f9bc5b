ghost use Rattle.std.specs.Prelude.{◌≡◌, ◌≤◌, length};
ghost use Rattle.std.specs.Iterator.{YieldsFirstBy, item_count};
ghost use Rattle.netcode.specs.Layouts.{program_count, work_program, line_program, station_of, programs_of};
ghost use Rattle.netcode.specs.Programs.{programs_left};
ghost use Rattle.netcode.specs.Rules.{first_broken};

use crate::rules::check_program;
use crate::step::{Layout, Step};
use fault::{Fault, StepPlace};

// A station's programs: its work program, and after it its line program.
const PER_STATION: usize = 2;

// The number of a station's work program.
pub fn work_program(station: u32) -> usize
    ensures { result ≡ work_program station }
{
    PER_STATION * station as usize
}

// The number of a station's line program.
pub fn line_program(station: u32) -> usize
    ensures { result ≡ line_program station }
{
    work_program(station) + 1
}

// The station of a program.
pub fn station_of(program: usize) -> usize
    ensures { result ≡ station_of program }
{
    program / PER_STATION
}

// How many programs the stations have; there are at most 8 stations.
pub fn program_count(stations: u32) -> usize
    ensures count { result ≡ program_count stations }
    ensures few { result ≤ 16 }
{
    PER_STATION * stations.min(8) as usize
}

// The programs that are still to come: their lengths, and the steps from the next one on.
#[derive(Drop)]
pub struct Programs<'a> {
    lengths: &'a [usize],
    steps: &'a [Step],
}

impl<'a> Iterator for Programs<'a> {
    type Item = &'a [Step];

    ghost next_gives = { YieldsFirstBy (λ x. x.now) programs_left };

    ghost remaining = { item_count programs_left };

    fn next(&mut self) -> Option<&'a [Step]> {
        let (length, lengths) = self.lengths.split_first()?;
        let (program, steps) = self.steps.split_at((*length).min(self.steps.len()));
        self.lengths = lengths;
        self.steps = steps;
        Some(program)
    }
}

impl Layout {
    // The programs of a flat list of steps: the parts that the layout cuts off from the front, shorter where
    // the list ends. Steps after the last are in no program.
    #[tactic(auto, using(crate::proofs::Cuts::cut_lengths))]
    pub fn programs<'a>(&'a self, steps: &'a [Step]) -> Programs<'a>
        ensures programs { programs_left result ≡ programs_of self.now steps.now }
        ensures few { length (programs_left result) ≤ 16 }
    {
        Programs {
            lengths: &self.lengths[..program_count(self.stations)],
            steps,
        }
    }
}

// Where the programs of a list of steps break the rules: the first that does, and there its length or its
// first bad step.
pub fn check(layout: &Layout, steps: &[Step]) -> Option<Fault<StepPlace>>
    ensures { result ≡ first_broken 0 (programs_of layout.now steps.now) }
{
    for (number, program) in layout.programs(steps).enumerate() {
        if let Some(fault) = check_program(number, program) {
            return Some(fault);
        }
    }
    None
}
