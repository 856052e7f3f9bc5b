ghost use Rattle.std.specs.Prelude.{◌≡◌};
ghost use Rattle.wire.specs.Numbers.{number_at, after_number};
ghost use Rattle.sheet.specs.Parts.{shown};
ghost use Rattle.programs.specs.Steps.{two_numbers, three_numbers, test_fields, call_fields, step_from};

use fault::{Fault, Offset};
use netcode::Step;
use sheet::{read_inputs, read_relation, strange};
use wire::Reader;

// The next two numbers.
fn two_numbers(reader: &mut Reader) -> Result<(u32, u32), Fault<Offset>>
    ensures value { shown result reader.new.pos ≡ two_numbers (number_at reader.old.bytes.now) (after_number reader.old.bytes.now) reader.old.pos }
    ensures same { reader.new.bytes ≡ reader.old.bytes }
{
    let first = reader.number()?;
    let second = reader.number()?;
    Ok((first, second))
}

// The next three numbers.
fn three_numbers(reader: &mut Reader) -> Result<(u32, u32, u32), Fault<Offset>>
    ensures value { shown result reader.new.pos ≡ three_numbers (number_at reader.old.bytes.now) (after_number reader.old.bytes.now) reader.old.pos }
    ensures same { reader.new.bytes ≡ reader.old.bytes }
{
    let first = reader.number()?;
    let second = reader.number()?;
    let third = reader.number()?;
    Ok((first, second, third))
}

fn test_fields(reader: &mut Reader) -> Result<Step, Fault<Offset>>
    ensures value { shown result reader.new.pos ≡ test_fields (number_at reader.old.bytes.now) (after_number reader.old.bytes.now) reader.old.pos }
    ensures same { reader.new.bytes ≡ reader.old.bytes }
{
    let variable = reader.number()?;
    let relation = read_relation(reader)?;
    let word = reader.number()?;
    let address = reader.number()?;
    Ok(Step::Test {
        variable,
        relation,
        word,
        address,
    })
}

fn call_fields(reader: &mut Reader) -> Result<Step, Fault<Offset>>
    ensures value { shown result reader.new.pos ≡ call_fields (number_at reader.old.bytes.now) (after_number reader.old.bytes.now) reader.old.pos }
    ensures same { reader.new.bytes ≡ reader.old.bytes }
{
    let row = reader.number()?;
    let work = reader.number()?;
    let inputs = read_inputs(reader)?;
    let output = reader.number()?;
    let duration = reader.number()?;
    Ok(Step::Call {
        row,
        work,
        inputs,
        output,
        duration,
    })
}

// The next step: its number, and the fields of that step.
pub fn read_step(reader: &mut Reader) -> Result<Step, Fault<Offset>>
    ensures value { shown result reader.new.pos ≡ step_from reader.old.bytes.now reader.old.pos }
    ensures same { reader.new.bytes ≡ reader.old.bytes }
{
    let start = reader.pos();
    match reader.number()? {
        0 => test_fields(reader),
        1 => two_numbers(reader).map(|(ticks, address)| Step::Future { ticks, address }),
        2 => Ok(Step::Halt),
        3 => call_fields(reader),
        4 => three_numbers(reader).map(|(row, variable, duration)| Step::Send {
            row,
            variable,
            duration,
        }),
        5 => two_numbers(reader).map(|(variable, duration)| Step::Receive { variable, duration }),
        6 => two_numbers(reader).map(|(variable, cell)| Step::Keep { variable, cell }),
        7 => Ok(Step::Clear),
        8 => three_numbers(reader).map(|(cell, variable, word)| Step::Give {
            cell,
            variable,
            word,
        }),
        _ => Err(strange(start)),
    }
}
