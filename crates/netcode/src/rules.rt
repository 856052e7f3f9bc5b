ghost use Rattle.std.specs.Prelude.{◌≡◌};
ghost use Rattle.netcode.specs.Rules.{tick_count, fields_within, is_halt, step_stands, broken_step, broken_at, broken_program};

use crate::step::Step;
use fault::{Fault, Refusal, Rule, StepPlace, first_bad};

// Whether a number of ticks is within its limits.
fn tick_count(n: u32) -> bool
    ensures { result ≡ tick_count n }
{
    0 < n && n < 65536
}

impl Step {
    // Whether the fields are within their limits, at `at` of a program of `count` steps.
    fn fields_within(self, count: usize, at: usize) -> bool
        ensures { result ≡ fields_within count at self }
    {
        match self {
            Step::Test {
                variable,
                relation: _,
                word: _,
                address,
            } => variable < 64 && at < address as usize && (address as usize) < count,
            Step::Future { ticks, address } => tick_count(ticks) && (address as usize) < count,
            Step::Halt => true,
            Step::Call {
                row,
                work,
                inputs,
                output,
                duration,
            } => row < 128
                && work < 256
                && inputs.all_below(64)
                && output < 64
                && tick_count(duration),
            Step::Send {
                row,
                variable,
                duration,
            } => row < 128 && variable < 64 && tick_count(duration),
            Step::Receive { variable, duration } => variable < 64 && tick_count(duration),
            Step::Keep { variable, cell } => variable < 64 && cell < 16,
            Step::Clear => true,
            Step::Give {
                cell,
                variable,
                word: _,
            } => cell < 16 && variable < 64,
        }
    }

    // Whether the step is HALT.
    pub fn is_halt(self) -> bool
        ensures { result ≡ is_halt self }
    {
        matches!(self, Step::Halt)
    }

    // Whether the step may stand at `at` of a program of `count` steps.
    fn stands(self, count: usize, at: usize) -> bool
        ensures { result ≡ step_stands count at self }
    {
        self.fields_within(count, at) && (at < count && at + 1 < count || self.is_halt())
    }
}

// A step keeps the rule of its program, whose length is the context: its fields are within their limits,
// and the last step is HALT.
impl Rule<usize> for Step {
    type Why = ();

    ghost broken = { broken_step };

    fn judge(&self, above: &[Step], ctx: &usize) -> Option<()> {
        (!self.stands(*ctx, above.len())).then_some(())
    }
}

// Where a program breaks the rules: at address 0 for its length, or at the first step that breaks its own.
pub fn check_program(number: usize, steps: &[Step]) -> Option<Fault<StepPlace>>
    ensures { result ≡ broken_program number steps.now }
{
    let count = steps.len();
    if !(0 < count && count < 2049) {
        return Some(broken_at(number, 0));
    }
    first_bad(steps, &count).map(|(address, _)| broken_at(number, address))
}

fn broken_at(program: usize, address: usize) -> Fault<StepPlace>
    ensures { result ≡ broken_at program address }
{
    Fault {
        refusal: Refusal::BrokenProgram,
        place: StepPlace { program, address },
    }
}
