ghost use Rattle.std.specs.Prelude.{◌≡◌, ◌+◌, ◌<◌, ◌≤◌, length};
ghost use Rattle.translate.specs.Stores.{stored};
ghost use Rattle.translate.specs.Programs.{rows_length_of, block_of, code_of, Writes};

use crate::code::Code;
use crate::program::Program;
use netcode::Step;

impl Program<'_> {
    // The block of a date.
    fn put_block(&self, code: &mut Code, date: u32)
        requires within { date < self.now.cycle }
        requires near { code.old.end ≤ 99000000 }
        requires room { code.old.end + (rows_length_of self.now date + 2) ≤ length code.old.steps.now }
        ensures { Writes code.old code.new (block_of self.now date code.old.end) }
    {
        for (number, row) in self.rows.iter().enumerate() {
            if self.is_due(*row, date) {
                self.put_row(code, date, number as u32, *row);
            }
        }
        code.put_wait(self.wait_step(date, date + 1));
    }

    // The whole program, in a list of steps that is still empty.
    fn put_all(&self, code: &mut Code)
        requires empty { code.old.end ≡ 0 }
        requires room { length (code_of self.now) ≤ length code.old.steps.now }
        ensures { Writes code.old code.new (code_of self.now) }
    {
        self.put_opening(code);
        for date in self.dates(self.cycle) {
            self.put_block(code, date);
        }
    }

    // The same at the front of a list that was handed in, and how many steps it has.
    pub fn put(&self, steps: &mut [Step]) -> usize
        requires { length (code_of self.now) ≤ length steps.old }
        ensures list { steps.new ≡ stored steps.old 0 (code_of self.now) }
        ensures end { result ≡ length (code_of self.now) }
    {
        let mut code = Code { steps, end: 0 };
        self.put_all(&mut code);
        code.end
    }
}
