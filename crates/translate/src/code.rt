ghost use Rattle.std.specs.Prelude.{◌≡◌, ◌+◌, ◌<◌, ◌≤◌, [], ◌∷◌, length};
ghost use Rattle.netcode.specs.declared.step.Step.TheVariants.{Halt};
ghost use Rattle.translate.specs.Programs.{Writes};
ghost use Rattle.translate.specs.Translation.{tests_code};

use netcode::Step;
use sheet::Test;

// A list of steps that is filled from its front, and where the next step goes.
#[derive(Drop)]
pub struct Code<'a> {
    pub steps: &'a mut [Step],
    pub end: usize,
}

impl Code<'_> {
    // One step more.
    pub fn put(&mut self, step: Step)
        requires { self.old.end < length self.old.steps.now }
        ensures { Writes self.old self.new (step ∷ []) }
    {
        self.steps[self.end] = step;
        self.end += 1;
    }

    // A wait and HALT.
    pub fn put_wait(&mut self, wait: Step)
        requires { self.old.end + 2 ≤ length self.old.steps.now }
        ensures { Writes self.old self.new (wait ∷ Halt ∷ []) }
    {
        self.put(wait);
        self.put(Step::Halt);
    }

    // Tests that go to `to` where they fail.
    pub fn put_tests(&mut self, tests: &[Test], to: u32)
        requires { self.old.end + length tests.now ≤ length self.old.steps.now }
        ensures code { Writes self.old self.new (tests_code tests.now to) }
        ensures end { self.new.end ≡ self.old.end + length tests.now }
    {
        for test in tests {
            self.put(Step::Test {
                variable: test.variable,
                relation: test.relation,
                word: test.word,
                address: to,
            });
        }
    }
}
