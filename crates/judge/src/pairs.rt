ghost use Rattle.std.specs.Prelude.{◌≡◌};
ghost use Rattle.judge.specs.Verdict.{two_writers, overlapping, calls_overlap, sends_overlap, first_writer, first_overlap};

use crate::condition::excludes;
use crate::fields::ends_at;
use sheet::{Call, Row, Send};

// Whether two rows give one variable, where they should not.
fn is_second_writer(upper: Row, lower: Row) -> bool
    ensures { result ≡ two_writers upper lower }
{
    match (upper, lower) {
        (Row::Keep(k), Row::Keep(l)) => k.given == l.given,
        (Row::Keep(k), Row::Call(c)) => k.given == c.output,
        (Row::Call(c), Row::Keep(k)) => c.output == k.given,
        (Row::Call(c), Row::Call(d)) => {
            c.output == d.output && !excludes(c.condition, d.condition)
        }
        (Row::Send(_), _) | (_, Row::Send(_)) => false,
    }
}

fn calls_overlap(upper: Call, lower: Call) -> bool
    ensures { result ≡ calls_overlap upper lower }
{
    upper.station == lower.station
        && !excludes(upper.condition, lower.condition)
        && ends_at(upper.date, upper.duration) > u64::from(lower.date)
}

fn sends_overlap(upper: Send, lower: Send) -> bool
    ensures { result ≡ sends_overlap upper lower }
{
    !excludes(upper.condition, lower.condition)
        && ends_at(upper.date, upper.duration) > u64::from(lower.date)
        && ends_at(lower.date, lower.duration) > u64::from(upper.date)
}

// Whether two rows overlap, at a station or on the line.
fn is_overlapping(upper: Row, lower: Row) -> bool
    ensures { result ≡ overlapping upper lower }
{
    match (upper, lower) {
        (Row::Call(c), Row::Call(d)) => calls_overlap(c, d),
        (Row::Send(s), Row::Send(t)) => sends_overlap(s, t),
        _ => false,
    }
}

// The topmost row above that gives the same variable.
pub fn first_writer(above: &[Row], row: Row) -> Option<usize>
    ensures { result ≡ first_writer above.now row }
{
    above.iter().position(|u| is_second_writer(*u, row))
}

// The topmost row above that overlaps.
pub fn first_overlap(above: &[Row], row: Row) -> Option<usize>
    ensures { result ≡ first_overlap above.now row }
{
    above.iter().position(|u| is_overlapping(*u, row))
}
