ghost use Rattle.std.specs.Prelude.{◌≡◌};
ghost use Rattle.judge.specs.Verdict.{tested_once, breach_of, fault_of, verdict};
ghost use Rattle.judge.specs.Right.{Right, AcceptsExactly, NamesFirst};
ghost use Rattle.judge.specs.Worked.{WorkedSheetAccepted, WorkedSheetRefused, WorkedSends};

use crate::availability::require_all;
use crate::breach::{Breach, SheetRules};
use crate::condition::none_twice;
use crate::fields::row_within;
use crate::pairs::{first_overlap, first_writer};
use fault::{Fault, Refusal, RowPlace, Rule, first_bad};
use sheet::{Head, Row};

fn tested_once(row: Row) -> bool
    ensures { result ≡ tested_once row }
{
    none_twice(row.condition())
}

impl Rule<SheetRules> for Row {
    type Why = Breach;

    ghost broken = { λ rules above x. breach_of rules.head above x };

    fn judge(&self, above: &[Row], ctx: &SheetRules) -> Option<Breach> {
        if !row_within(ctx.head, above, *self) {
            return Some(Breach::Outside);
        }
        if !tested_once(*self) {
            return Some(Breach::TestedTwice);
        }
        if let Some(u) = first_writer(above, *self) {
            return Some(Breach::TwoWriters(u));
        }
        if let Some(u) = first_overlap(above, *self) {
            return Some(Breach::Clash(u));
        }
        require_all(ctx.head, above, *self)
            .err()
            .map(|missing| Breach::Unavailable(missing.variable))
    }
}

fn fault_of(row: usize, breach: Breach) -> Fault<RowPlace>
    ensures { result ≡ fault_of row breach }
{
    let (refusal, place) = match breach {
        Breach::Outside => (Refusal::Outside, RowPlace::Row(row)),
        Breach::TestedTwice => (Refusal::TestedTwice, RowPlace::Row(row)),
        Breach::TwoWriters(upper) => (Refusal::TwoWriters, RowPlace::Rows { lower: row, upper }),
        Breach::Clash(upper) => (Refusal::Clash, RowPlace::Rows { lower: row, upper }),
        Breach::Unavailable(variable) => (
            Refusal::Unavailable,
            RowPlace::Variable { row, variable },
        ),
    };
    Fault { refusal, place }
}

// The first refusal of the rows, from the top.
pub fn judge(head: &Head, rows: &[Row]) -> Option<Fault<RowPlace>>
    ensures value { result ≡ verdict head.now rows.now }
    ensures right { Right head.now rows.now result }
{
    first_bad(rows, &SheetRules { head: *head }).map(|(row, breach)| fault_of(row, breach))
}

// The theorems of the judge: its verdict is nothing exactly where the rules hold, and each refusal names
// the first breach, at its place.
pub fn verdict_stands() -> u8
    ensures exactly { AcceptsExactly }
    ensures names { NamesFirst }
{
    0
}

// Verdicts on small sheets, computed from the definitions.
pub fn worked_verdicts() -> u8
    ensures accepted { WorkedSheetAccepted }
    ensures refused { WorkedSheetRefused }
    ensures sends { WorkedSends }
{
    0
}
