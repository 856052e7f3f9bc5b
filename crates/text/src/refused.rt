ghost use Rattle.std.specs.Prelude.{Some};
ghost use Rattle.text.specs.Refused.{refused_text};

use fault::{Fault, Place};
use std::fmt;

// The line that tells a refusal: the word, its number, and the numbers of its place.
#[derive(Clone, Copy)]
pub struct RefusedLine(pub Fault<Place>);

impl fmt::Display for RefusedLine {
    ghost output = { λ x. Some (refused_text x.0) };

    fn fmt<W: fmt::Write>(&self, f: &mut fmt::Formatter<W>) -> fmt::Result {
        let n = self.0.refusal.number();
        let zero = 0u8;
        match self.0.place {
            Place::Offset(o) => write!(f, "refused {n} {o}"),
            Place::Needed(c) => write!(f, "refused {n} {c}"),
            Place::Head => write!(f, "refused {n} {zero}"),
            Place::Row(row) => write!(f, "refused {n} {row}"),
            Place::Rows { lower, upper } => write!(f, "refused {n} {lower} {upper}"),
            Place::Variable { row, variable } => write!(f, "refused {n} {row} {variable}"),
            Place::Asked { station, variable } => write!(f, "refused {n} {station} {variable}"),
            Place::AskedRow(row) => write!(f, "refused {n} {row}"),
            Place::Work { station, work } => write!(f, "refused {n} {station} {work}"),
            Place::WorkOfRow { station, work, row } => {
                write!(f, "refused {n} {station} {work} {row}")
            }
            Place::WorkOfStep {
                station,
                work,
                program,
                address,
            } => write!(f, "refused {n} {station} {work} {program} {address}"),
            Place::Step { program, address } => write!(f, "refused {n} {program} {address}"),
            Place::Run => write!(f, "refused {n} {zero}"),
        }
    }
}
