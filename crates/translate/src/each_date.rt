ghost use Rattle.std.specs.Prelude.{◌≤◌};

use crate::program::Program;
use crate::row::date_of;
use sheet::Row;

// The dates of a program from `from` on and before `until`.
#[derive(Drop)]
pub struct Dates<'a> {
    program: Program<'a>,
    from: u32,
    until: u32,
    ghost within: { until ≤ program.cycle },
}

impl<'a> Program<'a> {
    ghost use Rattle.std.specs.Prelude.{◌≤◌, ◌≡◌, ◌&&◌, if◌then◌else◌, min, nat_le, MatchOption};
    ghost use Rattle.translate.specs.Translation.{date_of, belongs};
    ghost use Rattle.translate.specs.Programs.{is_date_of, first_date_of};
    ghost use Rattle.translate.specs.Dates.{IsFirst};

    // Whether a date is one of its own.
    pub fn has_date(&self, date: u32) -> bool
        ensures { result ≡ is_date_of self.now date }
    {
        self.rows.iter().any(|row| self.is_due(*row, date))
    }

    // The earlier of `first` and the date of a row, if that is one of its own and not before `from`.
    fn earlier(&self, row: Row, from: u32, first: u32) -> u32
        ensures { result ≡ (if belongs self.now.number row && nat_le from (date_of row) then min first (date_of row) else first) }
    {
        if self.has(row) && from <= date_of(row) {
            first.min(date_of(row))
        } else {
            first
        }
    }

    // The first of its dates from `from` on and before `until`. (A chain of filters over the rows made a translation twice
    // as long.)
    pub fn date_in(&self, from: u32, until: u32) -> Option<u32>
        requires { until ≤ self.now.cycle }
        ensures { MatchOption result (until ≤ first_date_of self.now from) (IsFirst self.now from until) }
    {
        let mut first = until;
        for row in self.rows {
            first = self.earlier(*row, from, first);
        }
        (first < until).then_some(first)
    }

    // Its dates before `until`.
    pub fn dates(&self, until: u32) -> Dates<'a>
        requires { until ≤ self.now.cycle }
        ensures program { result.program ≡ self.now }
        ensures from { result.from ≡ 0 }
        ensures until { result.until ≡ until }
    {
        Dates {
            program: *self,
            from: 0,
            until,
        }
    }
}

impl Iterator for Dates<'_> {
    ghost use Rattle.std.specs.Prelude.{◌-◌};
    ghost use Rattle.std.specs.Iterator.{at_most};
    ghost use Rattle.translate.specs.Dates.{NextDate};

    type Item = u32;

    ghost next_gives = { NextDate };

    ghost remaining = { λ s. at_most (s.until - s.from) };

    fn next(&mut self) -> Option<u32> {
        let date = self.program.date_in(self.from, self.until)?;
        self.from = date + 1;
        Some(date)
    }
}
