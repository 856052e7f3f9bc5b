ghost use Rattle.std.specs.Prelude.{Some};
ghost use Rattle.sheet.specs.declared.row.Row.TheVariants.{Keep as keep_row, Call as call_row, Send as send_row};
ghost use Rattle.text.specs.Rows.{column, relation_text, test_text, condition_text, inputs_text, begin_text, ticks_text, row_text, head_text, found_text};

use crate::listeners::Listeners;
use sheet::{Call, Condition, Head, Inputs, Keep, Relation, Row, Send, Test};
use std::fmt;

// A number in a column: blanks before it, none where it is longer.
#[derive(Clone, Copy)]
pub struct Column<const WIDTH: usize>(pub u64);

impl<const WIDTH: usize> fmt::Display for Column<WIDTH> {
    ghost output = { λ x. Some (column WIDTH x.0) };

    #[tactic(auto, using(crate::proofs::Columns::styled))]
    fn fmt<W: fmt::Write>(&self, f: &mut fmt::Formatter<W>) -> fmt::Result {
        let n = self.0;
        write!(f, "{n:>WIDTH$}")
    }
}

// A test, as 0=1 or 0#1.
#[derive(Clone, Copy)]
pub struct TestText(pub Test);

impl fmt::Display for TestText {
    ghost output = { λ x. Some (test_text x.0) };

    fn fmt<W: fmt::Write>(&self, f: &mut fmt::Formatter<W>) -> fmt::Result {
        let variable = self.0.variable;
        let word = self.0.word;
        match self.0.relation {
            Relation::Equal => write!(f, "{variable}={word}"),
            Relation::Unequal => write!(f, "{variable}#{word}"),
        }
    }
}

// The tests of a row.
#[derive(Clone, Copy)]
pub struct ConditionText(pub Condition);

impl fmt::Display for ConditionText {
    ghost output = { λ x. Some (condition_text x.0) };

    fn fmt<W: fmt::Write>(&self, f: &mut fmt::Formatter<W>) -> fmt::Result {
        match self.0 {
            Condition::Always => write!(f, ""),
            Condition::One(a) => {
                let a = TestText(a);
                write!(f, "  if {a}")
            }
            Condition::Two(a, b) => {
                let (a, b) = (TestText(a), TestText(b));
                write!(f, "  if {a} {b}")
            }
            Condition::Three(a, b, c) => {
                let (a, b, c) = (TestText(a), TestText(b), TestText(c));
                write!(f, "  if {a} {b} {c}")
            }
            Condition::Four(a, b, c, d) => {
                let (a, b, c, d) = (TestText(a), TestText(b), TestText(c), TestText(d));
                write!(f, "  if {a} {b} {c} {d}")
            }
        }
    }
}

// The inputs of a call, in a column of twelve.
#[derive(Clone, Copy)]
pub struct InputsText(pub Inputs);

impl fmt::Display for InputsText {
    ghost output = { λ x. Some (inputs_text x.0) };

    fn fmt<W: fmt::Write>(&self, f: &mut fmt::Formatter<W>) -> fmt::Result {
        match self.0 {
            Inputs::Nothing => write!(f, "            "),
            Inputs::Single(a) => {
                let a = Column::<3>(u64::from(a));
                write!(f, "from {a}    ")
            }
            Inputs::Pair(a, b) => {
                let a = Column::<3>(u64::from(a));
                let b = Column::<3>(u64::from(b));
                write!(f, "from {a},{b}")
            }
        }
    }
}

// How the line of a row begins.
#[derive(Clone, Copy)]
pub struct Begin {
    pub number: usize,
    pub station: u32,
}

impl fmt::Display for Begin {
    ghost output = { λ x. Some (begin_text x.number x.station) };

    fn fmt<W: fmt::Write>(&self, f: &mut fmt::Formatter<W>) -> fmt::Result {
        let number = Column::<3>(self.number as u64);
        let station = self.station;
        write!(f, "row {number}  station {station}  ")
    }
}

// From which tick to which a row lasts.
#[derive(Clone, Copy)]
pub struct Ticks {
    pub date: u32,
    pub duration: u32,
}

impl fmt::Display for Ticks {
    ghost output = { λ x. Some (ticks_text x.date x.duration) };

    fn fmt<W: fmt::Write>(&self, f: &mut fmt::Formatter<W>) -> fmt::Result {
        let date = Column::<5>(u64::from(self.date));
        let end = Column::<5>(u64::from(self.date) + u64::from(self.duration));
        write!(f, "  ticks {date} to {end}")
    }
}

// The line of a row.
#[derive(Clone, Copy)]
pub struct RowLine {
    pub number: usize,
    pub row: Row,
}

impl fmt::Display for RowLine {
    ghost output = { λ x. Some (row_text x.number x.row) };

    fn fmt<W: fmt::Write>(&self, f: &mut fmt::Formatter<W>) -> fmt::Result {
        match self.row {
            Row::Keep(keep) => {
                let line = KeepLine {
                    number: self.number,
                    keep,
                };
                write!(f, "{line}")
            }
            Row::Call(call) => {
                let line = CallLine {
                    number: self.number,
                    call,
                };
                write!(f, "{line}")
            }
            Row::Send(send) => {
                let line = SendLine {
                    number: self.number,
                    send,
                };
                write!(f, "{line}")
            }
        }
    }
}

// The line of a keep row.
#[derive(Clone, Copy)]
pub struct KeepLine {
    pub number: usize,
    pub keep: Keep,
}

impl fmt::Display for KeepLine {
    ghost output = { λ x. Some (row_text x.number (keep_row x.keep)) };

    fn fmt<W: fmt::Write>(&self, f: &mut fmt::Formatter<W>) -> fmt::Result {
        let begin = Begin {
            number: self.number,
            station: self.keep.station,
        };
        let taken = Column::<3>(u64::from(self.keep.taken));
        let given = Column::<3>(u64::from(self.keep.given));
        let first = self.keep.first;
        write!(
            f,
            "{begin}keep  variable {taken} as variable {given}, at first {first}"
        )
    }
}

// The line of a call row.
#[derive(Clone, Copy)]
pub struct CallLine {
    pub number: usize,
    pub call: Call,
}

impl fmt::Display for CallLine {
    ghost output = { λ x. Some (row_text x.number (call_row x.call)) };

    fn fmt<W: fmt::Write>(&self, f: &mut fmt::Formatter<W>) -> fmt::Result {
        let begin = Begin {
            number: self.number,
            station: self.call.station,
        };
        let work = Column::<3>(u64::from(self.call.work));
        let inputs = InputsText(self.call.inputs);
        let output = Column::<3>(u64::from(self.call.output));
        let ticks = Ticks {
            date: self.call.date,
            duration: self.call.duration,
        };
        let condition = ConditionText(self.call.condition);
        write!(
            f,
            "{begin}call  work {work} {inputs} into {output}{ticks}{condition}"
        )
    }
}

// The line of a send row.
#[derive(Clone, Copy)]
pub struct SendLine {
    pub number: usize,
    pub send: Send,
}

impl fmt::Display for SendLine {
    ghost output = { λ x. Some (row_text x.number (send_row x.send)) };

    fn fmt<W: fmt::Write>(&self, f: &mut fmt::Formatter<W>) -> fmt::Result {
        let begin = Begin {
            number: self.number,
            station: self.send.station,
        };
        let variable = Column::<3>(u64::from(self.send.variable));
        let ticks = Ticks {
            date: self.send.date,
            duration: self.send.duration,
        };
        let listeners = Listeners(self.send.listeners);
        let condition = ConditionText(self.send.condition);
        write!(
            f,
            "{begin}send  variable {variable}                  {ticks}  heard by{listeners}{condition}"
        )
    }
}

// The line of a head.
#[derive(Clone, Copy)]
pub struct HeadLine(pub Head);

impl fmt::Display for HeadLine {
    ghost output = { λ x. Some (head_text x.0) };

    fn fmt<W: fmt::Write>(&self, f: &mut fmt::Formatter<W>) -> fmt::Result {
        let stations = self.0.stations;
        let variables = self.0.variables;
        let cycle = self.0.cycle;
        let rows = self.0.rows;
        write!(
            f,
            "{stations} stations, {variables} variables, a cycle of {cycle} ticks, {rows} rows"
        )
    }
}

// The line that says how much was read.
#[derive(Clone, Copy)]
pub struct FoundLine {
    pub rows: u32,
    pub bytes: usize,
}

impl fmt::Display for FoundLine {
    ghost output = { λ x. Some (found_text x.rows x.bytes) };

    fn fmt<W: fmt::Write>(&self, f: &mut fmt::Formatter<W>) -> fmt::Result {
        let rows = self.rows;
        let bytes = self.bytes;
        write!(f, "read {rows} rows, {bytes} bytes")
    }
}
