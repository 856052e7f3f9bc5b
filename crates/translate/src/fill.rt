ghost use Rattle.std.specs.Prelude.{◌≡◌, ◌≤◌, length, map, replicate};
ghost use Rattle.translate.specs.Stores.{stored, steps_of, needed, Bounded};
ghost use Rattle.translate.specs.Translation.{translated};

use crate::program::Program;
use netcode::{Step, program_count};
use sheet::{Head, Row};

// How many steps all programs have.
pub fn all_lengths(head: Head, rows: &[Row]) -> usize
    requires { Bounded head.cycle rows.now }
    ensures { result ≡ needed head rows.now }
{
    let mut sum = 0;
    // Programs are numbers until they are written: no list stands behind them.
    for number in 0..program_count(head.stations) {
        sum += Program::new(head, rows, number as u32).length();
    }
    sum
}

// All programs, one after the other, and their lengths.
pub fn put_programs(head: Head, rows: &[Row], steps: &mut [Step]) -> [usize; 16]
    requires bounded { Bounded head.cycle rows.now }
    requires room { needed head rows.now ≤ length steps.old }
    ensures list { steps.new ≡ stored steps.old 0 (steps_of (translated head rows.now)) }
    ensures lengths { result ≡ stored (replicate 16 0) 0 (map length (translated head rows.now)) }
{
    let mut lengths = [0; 16];
    let mut at = 0;
    // By number: after an adapter of `iter_mut`, as `enumerate`, a proof would know none of the lengths.
    for number in 0..program_count(head.stations) {
        let length = Program::new(head, rows, number as u32).put(&mut steps[at..]);
        lengths[number] = length;
        at += length;
    }
    lengths
}
