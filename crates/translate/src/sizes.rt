ghost use Rattle.std.specs.Prelude.{◌≡◌, ℕ, ◌+◌, ◌*◌, ◌≤◌, length};
ghost use Rattle.sheet.specs.declared.row.Keep.{Keep};
ghost use Rattle.netcode.specs.declared.step.Step.{Step};
ghost use Rattle.translate.specs.Programs.{early_steps, kept_to, preparation_of, opening_length_of, address_of, code_of};

use crate::program::Program;
use crate::row::{date_of, row_length};

impl Program<'_> {
    // How many steps its rows of the dates before one have.
    fn steps_before(&self, date: u32) -> usize
        ensures { result ≡ early_steps self.now.number self.now.rows.now date }
    {
        self.rows
            .iter()
            .filter(|row| self.has(**row) && date_of(**row) < date)
            .map(|row| row_length(*row))
            .sum()
    }

    // How many keep rows its station has.
    fn keep_count(&self) -> usize
        ensures kept { (made : ℕ → Keep → Step) → result ≡ length (kept_to made self.now.rows.now self.now.number (length self.now.rows.now)) }
        ensures few { result ≤ 128 }
    {
        self.rows
            .iter()
            .filter(|row| self.kept(**row).is_some())
            .count()
    }

    // How many steps prepare its station.
    fn preparation_length(&self) -> usize
        ensures length { result ≡ length (preparation_of self.now) }
        ensures few { result ≤ 257 }
    {
        if self.is_line() {
            0
        } else {
            2 * self.keep_count() + 1
        }
    }

    // How many steps its opening has.
    pub fn opening_length(&self) -> usize
        ensures length { result ≡ opening_length_of self.now }
        ensures few { result ≤ 259 }
    {
        let wait = if self.has_date(0) { 0 } else { 2 };
        self.preparation_length() + wait
    }

    // Where its block of a date begins, or would begin: behind the opening, the steps of its rows of earlier dates, and the two
    // with which each block of these ends.
    pub fn block_address(&self, date: u32) -> usize
        requires { date ≤ self.now.cycle }
        ensures address { result ≡ address_of self.now date }
        ensures few { result ≤ 259 + 898 * date }
    {
        let mut place = self.opening_length() + self.steps_before(date);
        for _ in self.dates(date) {
            place += 2;
        }
        place
    }

    // How many steps it has.
    pub fn length(&self) -> usize
        ensures length { result ≡ length (code_of self.now) }
        ensures few { result ≤ 259 + 898 * self.now.cycle }
    {
        self.block_address(self.cycle)
    }
}
