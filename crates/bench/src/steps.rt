ghost use Rattle.std.specs.Prelude.{◌≡◌, ℕ, ◌+◌, ◌<◌, ◌≤◌, Some, None};
ghost use Rattle.netcode.specs.Layouts.{station_of};
ghost use Rattle.semantics.specs.Machine.{word_in, with_timer, tested, called, input_words, sent, listening, kept_from, with_word, cell_in};
ghost use Rattle.semantics.specs.Reading.{or_first};
ghost use Rattle.bench.specs.Shown.{world, stepped_to, Room};

use crate::access::{first_word, second_word};
use crate::call::Call;
use crate::machine::Machine;
use crate::position::{Position, Program};
use fault::{Fault, Refusal, TickPlace};
use plant::Plant;
use semantics::{Job, Message};
use sheet::Relation;

// A method's `P` is the kind of plant whose machine its contract speaks of. Only CALL asks the plant itself. (`Room` is of a
// machine and of the program whose turn it is, so that it is no fact of the machine alone; and a type for a cell or a
// duration within its limits would have each field of a step wrapped first.)
impl Machine {
    // TEST: where it fails, the step goes to the address it names.
    pub(crate) fn test<P: Plant>(
        &self,
        at: Position,
        variable: u32,
        relation: Relation,
        word: u32,
        to: u32,
    ) -> Result<Option<u32>, Fault<TickPlace>>
        requires { variable < 64 }
        ensures { (p : P.model.State) → stepped_to result (world self.now.state p) ≡ tested P.model (word_in self.now.state (station_of at.program.number) variable) relation word to at.program.number at.address (world self.now.state p) }
    {
        let Some(held) = self.word(at.program, variable) else {
            return Err(at.fault(Refusal::EmptyPlace));
        };
        let passes = match relation {
            Relation::Equal => held == word,
            Relation::Unequal => held != word,
        };
        Ok(Some(if passes { at.next() } else { to }))
    }

    // FUTURE: the unit is next due after so many ticks, at the address named.
    pub(crate) fn future(&mut self, program: Program, ticks: u32, to: u32)
        requires { ticks ≤ 65535 }
        ensures { self.new.state ≡ with_timer self.old.state program.number (Some (self.old.state.granted + ticks)) to }
    {
        let due = self.state.granted + ticks;
        self.set_timer(program, Some(due), to);
    }

    // CALL tries 16, 17 and 12; then the plant works now, and its answer is stored after the duration.
    pub(crate) fn call<P: Plant>(
        &mut self,
        at: Position,
        call: Call,
        plant: &mut P,
    ) -> Result<Option<u32>, Fault<TickPlace>>
        requires { Room self.old.state at.program.number }
        ensures { stepped_to result (world self.new.state (P.meaning plant.new)) ≡ called P.model (input_words call.inputs (word_in self.old.state (station_of at.program.number))) call.row call.work call.output call.duration at.program.number at.address (world self.old.state (P.meaning plant.old)) }
    {
        let Some(words) = self.input_words(at.program, call.inputs) else {
            return Err(at.fault(Refusal::EmptyPlace));
        };
        if self.is_busy(at.program) {
            return Err(at.fault(Refusal::UnitBusy));
        }
        let word = plant
            .perform(at.program.station() as u32, call.work, words)
            .map_err(|fault| at.carried_up(fault))?;
        let end = self.state.granted + call.duration;
        self.mark(call.row, first_word(words), second_word(words), word);
        self.set_job(
            at.program,
            Job::Store {
                end,
                variable: call.output,
                word,
            },
        );
        Ok(Some(at.next()))
    }

    // SEND tries 16, 17 and 14; then the line carries the word for the duration.
    pub(crate) fn send<P: Plant>(
        &mut self,
        at: Position,
        row: u32,
        variable: u32,
        duration: u32,
    ) -> Result<Option<u32>, Fault<TickPlace>>
        requires fields { (row < 128) × (variable < 64) × (duration ≤ 65535) }
        requires room { Room self.old.state at.program.number }
        ensures { (p : P.model.State) → stepped_to result (world self.new.state p) ≡ sent P.model (word_in self.old.state (station_of at.program.number) variable) row duration at.program.number at.address (world self.old.state p) }
    {
        let Some(word) = self.word(at.program, variable) else {
            return Err(at.fault(Refusal::EmptyPlace));
        };
        if self.is_busy(at.program) {
            return Err(at.fault(Refusal::UnitBusy));
        }
        if self.state.line.is_some() {
            return Err(at.fault(Refusal::LineCarrying));
        }
        let end = self.state.granted + duration;
        self.mark(row, Some(word), None, word);
        self.set_job(at.program, Job::Carry { end });
        self.state.line = Some(Message { end, word });
        Ok(Some(at.next()))
    }

    // RECEIVE tries 17; what it hears is stored after its duration.
    pub(crate) fn receive<P: Plant>(
        &mut self,
        at: Position,
        variable: u32,
        duration: u32,
    ) -> Result<Option<u32>, Fault<TickPlace>>
        requires { duration ≤ 65535 }
        ensures { (p : P.model.State) → stepped_to result (world self.new.state p) ≡ listening P.model variable duration at.program.number at.address (world self.old.state p) }
    {
        if self.is_busy(at.program) {
            return Err(at.fault(Refusal::UnitBusy));
        }
        let end = self.state.granted + duration;
        self.set_job(
            at.program,
            Job::Listen {
                end,
                variable,
                address: at.address,
            },
        );
        Ok(Some(at.next()))
    }

    // KEEP puts a word that is held in the cell.
    pub(crate) fn keep<P: Plant>(&mut self, program: Program, variable: u32, cell: u32)
        requires { (variable < 64) × (cell < 16) }
        ensures { self.new.state ≡ kept_from P.model (word_in self.old.state (station_of program.number) variable) cell self.old.state }
    {
        if let Some(word) = self.word(program, variable) {
            self.fill_cell(cell, word);
        }
    }

    // GIVE puts the cell's word, or the one it names where the cell is empty, in the variable.
    pub(crate) fn give(&mut self, program: Program, cell: u32, variable: u32, word: u32)
        requires { cell < 16 }
        ensures { self.new.state ≡ with_word self.old.state (station_of program.number) variable (Some (or_first (cell_in self.old.state cell) word)) }
    {
        let given = self.cell_or(cell, word);
        self.put_word(program, variable, given);
    }
}
