ghost use Rattle.std.specs.Prelude.{◌≡◌, ◌+◌, ◌≤◌, [], ◌∷◌, ◌++◌, length};
ghost use Rattle.netcode.specs.declared.step.Step.TheVariants.{Halt};
ghost use Rattle.translate.specs.Programs.{wait_of, Writes};
ghost use Rattle.translate.specs.Translation.{end_of, tests_in, tests_code, act};

use crate::code::Code;
use crate::program::Program;
use crate::row::end_of;
use netcode::Step;
use sheet::Row;

impl Program<'_> {
    // At a date, the wait for its first date not before `end`, or for the end of the cycle.
    pub fn wait_step(&self, date: u32, end: u32) -> Step
        requires later { date ≤ end }
        requires within { end ≤ self.now.cycle }
        ensures { result ≡ wait_of self.now date end }
    {
        match self.date_in(end, self.cycle) {
            Some(next) => Step::Future {
                ticks: next - date,
                address: self.block_address(next) as u32,
            },
            None => Step::Future {
                ticks: self.cycle - date,
                address: 0,
            },
        }
    }

    // The code of row `number`: its tests, which go to what follows where they fail, a wait, what the program
    // does of it, and HALT.
    pub fn put_row(&self, code: &mut Code, date: u32, number: u32, row: Row)
        requires later { date ≤ end_of row }
        requires within { end_of row ≤ self.now.cycle }
        requires near { code.old.end ≤ 100000000 }
        requires room { code.old.end + (length (tests_in row) + 3) ≤ length code.old.steps.now }
        ensures { Writes code.old code.new (tests_code (tests_in row) (code.old.end + (length (tests_in row) + 3)) ++ (wait_of self.now date (end_of row) ∷ act self.now.number number row ∷ Halt ∷ [])) }
    {
        let wait = self.wait_step(date, end_of(row));
        let tests = row.condition().tests();
        code.put_tests(tests.as_slice(), (code.end + tests.len() + 3) as u32);
        code.put(wait);
        code.put(self.act(number, row));
        code.put(Step::Halt);
    }
}
