ghost use Rattle.std.specs.Prelude.{◌≡◌, ℕ, ◌+◌, ◌≤◌, length};
ghost use Rattle.sheet.specs.declared.row.Keep.{Keep};
ghost use Rattle.netcode.specs.declared.step.Step.{Step};
ghost use Rattle.translate.specs.Programs.{kept_to, preparation_of, opening_length_of, opening_of, Writes};
ghost use Rattle.translate.specs.Translation.{keeps_to};

use crate::code::Code;
use crate::program::Program;
use netcode::Step;
use sheet::Keep;

impl Program<'_> {
    // For each keep row of its station the step that `step` makes of the row's number and the row.
    fn put_kept<F: Fn(u32, Keep) -> Step>(&self, code: &mut Code, step: F)
        requires callable { F.IsAlwaysCallable step }
        requires room { code.old.end + length (keeps_to self.now.rows.now self.now.number (length self.now.rows.now)) ≤ length code.old.steps.now }
        ensures { (made : ℕ → Keep → Step) → ((n : ℕ) (k : Keep) (s : Step) → F.post step n k s → s ≡ made n k) → Writes code.old code.new (kept_to made self.now.rows.now self.now.number (length self.now.rows.now)) }
    {
        for (number, row) in self.rows.iter().enumerate() {
            if let Some(keep) = self.kept(*row) {
                code.put(step(number as u32, keep));
            }
        }
    }

    // What it does first: a work program keeps, empties and gives.
    fn put_preparation(&self, code: &mut Code)
        requires { code.old.end + length (preparation_of self.now) ≤ length code.old.steps.now }
        ensures { Writes code.old code.new (preparation_of self.now) }
    {
        if self.is_line() {
            return;
        }
        self.put_kept(
            code,
            |number, keep| Step::Keep {
                variable: keep.taken,
                cell: number,
            },
        );
        code.put(Step::Clear);
        self.put_kept(
            code,
            |number, keep| Step::Give {
                cell: number,
                variable: keep.given,
                word: keep.first,
            },
        );
    }

    // Its opening: the preparation, and unless 0 is one of its dates the wait for the first one.
    pub fn put_opening(&self, code: &mut Code)
        requires { code.old.end + opening_length_of self.now ≤ length code.old.steps.now }
        ensures { Writes code.old code.new (opening_of self.now) }
    {
        self.put_preparation(code);
        if !self.has_date(0) {
            code.put_wait(self.wait_step(0, 0));
        }
    }
}
