ghost use Rattle.std.specs.Prelude.{◌≡◌};
ghost use Rattle.sheet.specs.Parts.{shown};
ghost use Rattle.sheet.specs.Sheets.{condition_at, one_test};
ghost use Rattle.sheet.specs.Borrowed.{shown_form, form_of, condition_in, decoded, borrowed_from, keep_from, call_from, send_from, condition_bytes};
ghost use Rattle.sheet.specs.Lent.{lent};
ghost use Rattle.wire.specs.Numbers.{number_at, after_number};

use crate::parts::{read_inputs, read_relation, strange};
use crate::row::{Call, Condition, Inputs, Keep, Row, Send, Test};
use fault::{Fault, Offset};
use wire::Reader;

// A row as it is read: the condition of a call or send is the part of the input that holds it.
#[derive(Clone, Copy)]
pub enum RowBytes<'a> {
    Keep(Keep),
    Call(Call<&'a [u8]>),
    Send(Send<&'a [u8]>),
}

fn read_test(reader: &mut Reader) -> Result<Test, Fault<Offset>>
    ensures value { shown result reader.new.pos ≡ one_test (number_at reader.old.bytes.now) (after_number reader.old.bytes.now) reader.old.pos }
    ensures same { reader.new.bytes ≡ reader.old.bytes }
{
    let variable = reader.number()?;
    let relation = read_relation(reader)?;
    let word = reader.number()?;
    Ok(Test {
        variable,
        relation,
        word,
    })
}

// The next condition: a count of at most four, and as many tests.
fn read_condition(reader: &mut Reader) -> Result<Condition, Fault<Offset>>
    ensures value { shown result reader.new.pos ≡ condition_at reader.old.bytes.now reader.old.pos }
    ensures same { reader.new.bytes ≡ reader.old.bytes }
{
    let start = reader.pos();
    match reader.number()? {
        0 => Ok(Condition::Always),
        1 => {
            let a = read_test(reader)?;
            Ok(Condition::One(a))
        }
        2 => {
            let a = read_test(reader)?;
            let b = read_test(reader)?;
            Ok(Condition::Two(a, b))
        }
        3 => {
            let a = read_test(reader)?;
            let b = read_test(reader)?;
            let c = read_test(reader)?;
            Ok(Condition::Three(a, b, c))
        }
        4 => {
            let a = read_test(reader)?;
            let b = read_test(reader)?;
            let c = read_test(reader)?;
            let d = read_test(reader)?;
            Ok(Condition::Four(a, b, c, d))
        }
        _ => Err(strange(start)),
    }
}

// The bytes of the next condition, once they are seen to hold one.
fn condition_bytes<'a>(reader: &mut Reader<'a>) -> Result<&'a [u8], Fault<Offset>>
    ensures value { lent result reader.new.pos ≡ condition_bytes reader.old.bytes.now reader.old.pos }
    ensures same { reader.new.bytes ≡ reader.old.bytes }
{
    let start = reader.pos();
    read_condition(reader)?;
    Ok(reader.since(start))
}

fn keep_bytes<'a>(reader: &mut Reader<'a>) -> Result<RowBytes<'a>, Fault<Offset>>
    ensures value { shown_form result reader.new.pos ≡ keep_from reader.old.bytes.now reader.old.pos }
    ensures same { reader.new.bytes ≡ reader.old.bytes }
{
    let station = reader.number()?;
    let taken = reader.number()?;
    let given = reader.number()?;
    let first = reader.number()?;
    Ok(RowBytes::Keep(Keep {
        station,
        taken,
        given,
        first,
    }))
}

fn call_bytes<'a>(reader: &mut Reader<'a>) -> Result<RowBytes<'a>, Fault<Offset>>
    ensures value { shown_form result reader.new.pos ≡ call_from reader.old.bytes.now reader.old.pos }
    ensures same { reader.new.bytes ≡ reader.old.bytes }
{
    let station = reader.number()?;
    let work = reader.number()?;
    let inputs = read_inputs(reader)?;
    let output = reader.number()?;
    let date = reader.number()?;
    let duration = reader.number()?;
    let condition = condition_bytes(reader)?;
    Ok(RowBytes::Call(Call {
        station,
        work,
        inputs,
        output,
        date,
        duration,
        condition,
    }))
}

fn send_bytes<'a>(reader: &mut Reader<'a>) -> Result<RowBytes<'a>, Fault<Offset>>
    ensures value { shown_form result reader.new.pos ≡ send_from reader.old.bytes.now reader.old.pos }
    ensures same { reader.new.bytes ≡ reader.old.bytes }
{
    let station = reader.number()?;
    let variable = reader.number()?;
    let listeners = reader.number()?;
    let date = reader.number()?;
    let duration = reader.number()?;
    let condition = condition_bytes(reader)?;
    Ok(RowBytes::Send(Send {
        station,
        variable,
        listeners,
        date,
        duration,
        condition,
    }))
}

// The next row, which borrows the bytes of its condition.
pub fn read_row<'a>(reader: &mut Reader<'a>) -> Result<RowBytes<'a>, Fault<Offset>>
    ensures value { shown_form result reader.new.pos ≡ borrowed_from reader.old.bytes.now reader.old.pos }
    ensures same { reader.new.bytes ≡ reader.old.bytes }
{
    let start = reader.pos();
    match reader.number()? {
        0 => keep_bytes(reader),
        1 => call_bytes(reader),
        2 => send_bytes(reader),
        _ => Err(strange(start)),
    }
}

// The condition that some bytes begin with.
fn decode_condition(bytes: &[u8]) -> Result<Condition, Fault<Offset>>
    ensures { result ≡ condition_in bytes.now }
{
    let mut reader = Reader::new(bytes);
    read_condition(&mut reader)
}

impl<'a> RowBytes<'a> {
    // The row with its condition decoded. What `read_row` gives is always decoded.
    pub fn decode(self) -> Result<Row, Fault<Offset>>
        ensures { result ≡ decoded (form_of self.entry) }
    {
        match self {
            RowBytes::Keep(keep) => Ok(Row::Keep(keep)),
            RowBytes::Call(call) => {
                let condition = decode_condition(call.condition)?;
                Ok(Row::Call(Call {
                    station: call.station,
                    work: call.work,
                    inputs: call.inputs,
                    output: call.output,
                    date: call.date,
                    duration: call.duration,
                    condition,
                }))
            }
            RowBytes::Send(send) => {
                let condition = decode_condition(send.condition)?;
                Ok(Row::Send(Send {
                    station: send.station,
                    variable: send.variable,
                    listeners: send.listeners,
                    date: send.date,
                    duration: send.duration,
                    condition,
                }))
            }
        }
    }
}
