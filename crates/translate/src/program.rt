ghost use Rattle.std.specs.Prelude.{◌≡◌, ◌&&◌, ◌==◌};
ghost use Rattle.netcode.specs.Layouts.{station_of};
ghost use Rattle.translate.specs.Stores.{Bounded};
ghost use Rattle.translate.specs.Translation.{date_of, is_line, belongs, act};

use crate::row::date_of;
use judge::is_listener;
use netcode::{Step, line_program, station_of};
use sheet::{Head, Keep, Row};

// A program of a sheet that keeps its limits: the sheet's rows, its cycle, and the program's number. (`Bounded` is asked where
// programs are made; for the sheet as a whole it would take a third type that only makes them.)
#[derive(Clone, Copy)]
pub struct Program<'a> {
    pub rows: &'a [Row],
    pub cycle: u32,
    pub number: u32,
    ghost bounded: { Bounded cycle rows.now },
}

impl<'a> Program<'a> {
    ghost use Rattle.std.specs.Prelude.{◌≡◌, ◌&&◌, ◌==◌};
    ghost use Rattle.netcode.specs.Layouts.{station_of};
    ghost use Rattle.translate.specs.Stores.{Bounded};
    ghost use Rattle.translate.specs.Programs.{kept_in, code_of};
    ghost use Rattle.translate.specs.Translation.{date_of, is_line, belongs, act, program_code};

    // Program `number` of a sheet.
    pub fn new(head: Head, rows: &'a [Row], number: u32) -> Program<'a>
        requires { Bounded head.cycle rows.now }
        ensures code { code_of result ≡ program_code head.cycle rows.now number }
        ensures cycle { result.cycle ≡ head.cycle }
    {
        Program {
            rows,
            cycle: head.cycle,
            number,
        }
    }

    // Its station.
    pub fn station(&self) -> u32
        ensures { result ≡ station_of self.now.number }
    {
        station_of(self.number as usize) as u32
    }

    // Whether it is its station's line program.
    pub fn is_line(&self) -> bool
        ensures { result ≡ is_line self.now.number }
    {
        self.number as usize == line_program(self.station())
    }

    // Whether a row is one of its own.
    pub fn has(&self, row: Row) -> bool
        ensures { result ≡ belongs self.now.number row }
    {
        match row {
            Row::Keep(_) => false,
            Row::Call(c) => !self.is_line() && c.station == self.station(),
            Row::Send(s) => {
                self.is_line()
                    && (s.station == self.station() || is_listener(s.listeners, self.station()))
            }
        }
    }

    // Whether a row is one of its own, and has that date.
    pub fn is_due(&self, row: Row, date: u32) -> bool
        ensures { result ≡ (belongs self.now.number row && date_of row == date) }
    {
        self.has(row) && date_of(row) == date
    }

    // A keep row of its station.
    pub fn kept(&self, row: Row) -> Option<Keep>
        ensures { result ≡ kept_in self.now.number row }
    {
        match row {
            Row::Keep(keep) if keep.station == self.station() => Some(keep),
            _ => None,
        }
    }

    // What it does of row `number`.
    pub fn act(&self, number: u32, row: Row) -> Step
        ensures { result ≡ act self.now.number number row }
    {
        match row {
            Row::Keep(_) => Step::Clear,
            Row::Call(c) => Step::Call {
                row: number,
                work: c.work,
                inputs: c.inputs,
                output: c.output,
                duration: c.duration,
            },
            Row::Send(s) if s.station == self.station() => Step::Send {
                row: number,
                variable: s.variable,
                duration: s.duration,
            },
            Row::Send(s) => Step::Receive {
                variable: s.variable,
                duration: s.duration,
            },
        }
    }
}
