ghost use Rattle.std.specs.Prelude.{◌≡◌, ℕ, ◌+◌, ◌*◌, ◌^◌, ◌<◌, ◌≤◌, length, Some, None, slice_set};
ghost use Rattle.netcode.specs.Layouts.{station_of};
ghost use Rattle.netcode.specs.Laws.{InputsWithin};
ghost use Rattle.semantics.specs.Reading.{or_first};
ghost use Rattle.semantics.specs.Machine.{word_in, cell_in, mark_in, unit_in, with_word, with_cell, with_job, with_timer, with_cleared, emptied, marked, is_idle, is_busy, input_words, first_word, second_word};

use crate::machine::Machine;
use crate::position::Program;
use plant::Words;
use semantics::{Job, Mark, UnitState};
use sheet::Inputs;

// Puts a word in a place. One past the last is none.
fn put(places: &mut [Option<u32>], place: usize, word: u32)
    ensures { places.new ≡ slice_set places.old place (Some word) }
{
    if place < places.len() {
        places[place] = Some(word);
    }
}

// A station's 64 places are emptied.
fn empty(places: &mut [Option<u32>], station: usize)
    requires { 64 * station + 64 ≤ length places.old }
    ensures { places.new ≡ emptied station 64 places.old }
{
    places[64 * station..64 * station + 64].fill(None);
}

// The words as a mark has them.
pub(crate) fn first_word(words: Words) -> Option<u32>
    ensures { result ≡ first_word words }
{
    match words {
        Words::Nothing => None,
        Words::Single(a) | Words::Pair(a, _) => Some(a),
    }
}

pub(crate) fn second_word(words: Words) -> Option<u32>
    ensures { result ≡ second_word words }
{
    match words {
        Words::Nothing | Words::Single(_) => None,
        Words::Pair(_, b) => Some(b),
    }
}

impl Machine {
    // The word that the station of a program has in a variable.
    // With a test of the place here, and no `requires`, a tick with much to do takes a tenth longer.
    pub(crate) fn word(&self, program: Program, variable: u32) -> Option<u32>
        requires { variable < 64 }
        ensures { result ≡ word_in self.now.state (station_of program.number) variable }
    {
        self.state.places[program.place(variable)]
    }

    // Puts a word in a variable.
    pub(crate) fn put_word(&mut self, program: Program, variable: u32, word: u32)
        ensures { self.new.state ≡ with_word self.old.state (station_of program.number) variable (Some word) }
    {
        put(&mut self.state.places, program.place(variable), word);
    }

    // The input words of a call, or nothing where a place is empty.
    pub(crate) fn input_words(&self, program: Program, inputs: Inputs) -> Option<Words>
        requires { InputsWithin inputs }
        ensures { result ≡ input_words inputs (word_in self.now.state (station_of program.number)) }
    {
        match inputs {
            Inputs::Nothing => Some(Words::Nothing),
            Inputs::Single(a) => Some(Words::Single(self.word(program, a)?)),
            Inputs::Pair(a, b) => Some(Words::Pair(self.word(program, a)?, self.word(program, b)?)),
        }
    }

    // Empties the places of a program's station.
    pub(crate) fn clear(&mut self, program: Program)
        ensures { self.new.state ≡ with_cleared self.old.state (station_of program.number) }
    {
        empty(&mut self.state.places, program.station());
    }

    // The word that a cell has, or the one given where it has none.
    pub(crate) fn cell_or(&self, cell: u32, word: u32) -> u32
        requires { cell < 16 }
        ensures { result ≡ or_first (cell_in self.now.state cell) word }
    {
        self.state.cells[cell as usize].unwrap_or(word)
    }

    pub(crate) fn fill_cell(&mut self, cell: u32, word: u32)
        requires { cell < 16 }
        ensures { self.new.state ≡ with_cell self.old.state cell (Some word) }
    {
        self.state.cells[cell as usize] = Some(word);
    }

    pub(crate) fn unit(&self, program: Program) -> UnitState
        ensures { result ≡ unit_in self.now.state program.number }
    {
        self.state.units[program.number]
    }

    pub(crate) fn is_busy(&self, program: Program) -> bool
        ensures { result ≡ is_busy self.now.state program.number }
    {
        !matches!(self.unit(program).job, Job::Idle)
    }

    pub(crate) fn set_job(&mut self, program: Program, job: Job)
        ensures { self.new.state ≡ with_job self.old.state program.number job }
    {
        self.state.units[program.number].job = job;
    }

    pub(crate) fn set_timer(&mut self, program: Program, timer: Option<u32>, address: u32)
        ensures { self.new.state ≡ with_timer self.old.state program.number timer address }
    {
        let unit = &mut self.state.units[program.number];
        unit.timer = timer;
        unit.address = address;
    }

    // Writes a row's mark: one more, at this tick, with the words read and the word given.
    pub(crate) fn mark(&mut self, row: u32, first: Option<u32>, second: Option<u32>, given: u32)
        requires { (row < 128) × ((mark_in self.old.state row).count < 2 ^ 31) }
        ensures { self.new.state ≡ marked self.old.state row first second given }
    {
        let count = self.state.marks[row as usize].count + 1;
        self.state.marks[row as usize] = Mark {
            count,
            tick: self.state.granted,
            first,
            second,
            given: Some(given),
        };
    }
}
