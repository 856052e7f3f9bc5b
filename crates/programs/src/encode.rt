ghost use Rattle.std.specs.Prelude.{◌≡◌, ◌+◌, ◌*◌, ◌^◌, ◌<◌, ◌≤◌, ◌++◌, length};
ghost use Rattle.std.specs.List.{flat_map};
ghost use Rattle.programs.specs.Files.{program_numbers};
ghost use Rattle.wire.specs.Bytes.{bytes_of};
ghost use Rattle.netcode.specs.Steps.{numbers_of};
ghost use Rattle.sheet.specs.Parts.{inputs_numbers};
ghost use Rattle.programs.specs.Stores.{written, putting};

use netcode::Step;
use sheet::Inputs;
use wire::put_number;

// Writes a number at `at` where there is room for it, and says where it ends.
pub(crate) fn put_one(out: &mut [u8], at: usize, n: u32) -> usize
    requires { at < 2 ^ 63 }
    ensures end { result ≡ at + length (bytes_of n) }
    ensures bytes { out.new ≡ written out.old at n }
    ensures near { result ≤ at + 5 }
{
    put_number(out, at, n).unwrap_or_else(|count| at + count)
}

// Writes numbers from `at` on, each where there is room for it, and says where they end.
fn put_numbers(out: &mut [u8], at: usize, numbers: &[u32]) -> usize
    requires { at + 5 * length numbers.now < 2 ^ 63 }
    ensures put { putting out.old at numbers.now ≡ (out.new, result) }
    ensures near { result ≤ at + 5 * length numbers.now }
{
    let mut end = at;
    for n in numbers {
        end = put_one(out, end, *n);
    }
    end
}

// Writes a CALL from `at` on: the numbers before its inputs, the inputs, and the numbers after them.
fn put_call(out: &mut [u8], at: usize, first: &[u32], inputs: Inputs, last: &[u32]) -> usize
    requires { (at < 2 ^ 62) × (length first.now ≤ 3) × (length last.now ≤ 2) }
    ensures put { putting out.old at (first.now ++ (inputs_numbers inputs ++ last.now)) ≡ (out.new, result) }
    ensures near { result ≤ at + 40 }
{
    let inputs_at = put_numbers(out, at, first);
    let rest = put_numbers(out, inputs_at, inputs.numbers().as_slice());
    put_numbers(out, rest, last)
}

// Writes a step from `at` on, each number where there is room for it, and says where it ends.
fn put_step(out: &mut [u8], at: usize, step: Step) -> usize
    requires { at < 2 ^ 62 }
    ensures put { putting out.old at (numbers_of step) ≡ (out.new, result) }
    ensures near { result ≤ at + 40 }
{
    match step {
        Step::Test {
            variable,
            relation,
            word,
            address,
        } => put_numbers(out, at, &[0, variable, u32::from(relation), word, address]),
        Step::Future { ticks, address } => put_numbers(out, at, &[1, ticks, address]),
        Step::Halt => put_numbers(out, at, &[2]),
        Step::Call {
            row,
            work,
            inputs,
            output,
            duration,
        } => put_call(out, at, &[3, row, work], inputs, &[output, duration]),
        Step::Send {
            row,
            variable,
            duration,
        } => put_numbers(out, at, &[4, row, variable, duration]),
        Step::Receive { variable, duration } => put_numbers(out, at, &[5, variable, duration]),
        Step::Keep { variable, cell } => put_numbers(out, at, &[6, variable, cell]),
        Step::Clear => put_numbers(out, at, &[7]),
        Step::Give {
            cell,
            variable,
            word,
        } => put_numbers(out, at, &[8, cell, variable, word]),
    }
}

// Writes steps from `at` on, and says where they end. The loops of numbers, steps and programs are three, since
// each asks another room of what it writes: 5 bytes a number, 40 a step, 2 to the power 40 a program.
fn put_steps(out: &mut [u8], at: usize, steps: &[Step]) -> usize
    requires { at + 40 * length steps.now < 2 ^ 62 }
    ensures put { putting out.old at (flat_map numbers_of steps.now) ≡ (out.new, result) }
    ensures near { result ≤ at + 40 * length steps.now }
{
    let mut end = at;
    for step in steps {
        end = put_step(out, end, *step);
    }
    end
}

// Writes a program from `at` on, its length and its steps, and says where it ends.
pub(crate) fn put_program(out: &mut [u8], at: usize, steps: &[Step]) -> usize
    requires { (length steps.now < 2 ^ 32) × (at < 2 ^ 60) }
    ensures put { putting out.old at (program_numbers steps.now) ≡ (out.new, result) }
    ensures near { result ≤ at + 2 ^ 40 }
{
    let start = put_one(out, at, steps.len() as u32);
    put_steps(out, start, steps)
}
