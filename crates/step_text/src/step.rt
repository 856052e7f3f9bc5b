ghost use Rattle.std.specs.Prelude.{Some};
ghost use Rattle.step_text.specs.Steps.{does_text, step_text, program_text};

use netcode::Step;
use sheet::Relation;
use std::fmt;
use text::{Column, InputsText};

// What a step does.
#[derive(Clone, Copy)]
pub struct Does(pub Step);

impl fmt::Display for Does {
    ghost output = { λ x. Some (does_text x.0) };

    fn fmt<W: fmt::Write>(&self, f: &mut fmt::Formatter<W>) -> fmt::Result {
        match self.0 {
            Step::Test {
                variable,
                relation,
                word,
                address,
            } => {
                let v = Column::<3>(u64::from(variable));
                let a = Column::<3>(u64::from(address));
                match relation {
                    Relation::Equal => write!(f, "TEST     variable {v}={word}, else to {a}"),
                    Relation::Unequal => write!(f, "TEST     variable {v}#{word}, else to {a}"),
                }
            }
            Step::Future { ticks, address } => {
                let t = Column::<5>(u64::from(ticks));
                let a = Column::<3>(u64::from(address));
                write!(f, "FUTURE   in {t} ticks at {a}")
            }
            Step::Halt => write!(f, "HALT"),
            Step::Call {
                row,
                work,
                inputs,
                output,
                duration,
            } => {
                let r = Column::<3>(u64::from(row));
                let w = Column::<3>(u64::from(work));
                let i = InputsText(inputs);
                let o = Column::<3>(u64::from(output));
                write!(
                    f,
                    "CALL     row {r}, work {w} {i} into {o} for {duration} ticks"
                )
            }
            Step::Send {
                row,
                variable,
                duration,
            } => {
                let r = Column::<3>(u64::from(row));
                let v = Column::<3>(u64::from(variable));
                write!(f, "SEND     row {r}, variable {v} for {duration} ticks")
            }
            Step::Receive { variable, duration } => {
                let v = Column::<3>(u64::from(variable));
                write!(f, "RECEIVE  variable {v} for {duration} ticks")
            }
            Step::Keep { variable, cell } => {
                let v = Column::<3>(u64::from(variable));
                write!(f, "KEEP     variable {v} in cell {cell}")
            }
            Step::Clear => write!(f, "CLEAR"),
            Step::Give {
                cell,
                variable,
                word,
            } => {
                let v = Column::<3>(u64::from(variable));
                write!(f, "GIVE     cell {cell} as variable {v}, at first {word}")
            }
        }
    }
}

// The line of a step.
#[derive(Clone, Copy)]
pub struct StepLine {
    pub address: usize,
    pub step: Step,
}

impl fmt::Display for StepLine {
    ghost output = { λ x. Some (step_text x.address x.step) };

    fn fmt<W: fmt::Write>(&self, f: &mut fmt::Formatter<W>) -> fmt::Result {
        let address = Column::<5>(self.address as u64);
        let does = Does(self.step);
        write!(f, "{address}  {does}")
    }
}

// Which of its station's two programs a program is.
#[derive(Clone, Copy, PartialEq)]
pub enum Role {
    Work,
    Line,
}

// The line above a program.
#[derive(Clone, Copy)]
pub struct ProgramLine {
    pub program: usize,
    pub station: usize,
    pub role: Role,
}

impl fmt::Display for ProgramLine {
    ghost output = { λ x. Some (program_text x.role x.program x.station) };

    fn fmt<W: fmt::Write>(&self, f: &mut fmt::Formatter<W>) -> fmt::Result {
        let program = self.program;
        let station = self.station;
        match self.role {
            Role::Work => write!(f, "program {program}, work of station {station}"),
            Role::Line => write!(f, "program {program}, line of station {station}"),
        }
    }
}
