ghost use Rattle.std.specs.Prelude.{◌≡◌, ◌+◌};
ghost use Rattle.judge.specs.Verdict.{listens, listeners_exist, within_cycle, keep_within, call_within, send_within, fields_within, is_keep, only_keeps, placed, within};

use crate::condition::tests_within;
use sheet::{Call, Head, Keep, Row, Send};

// The date at which a row ends.
pub fn ends_at(date: u32, duration: u32) -> u64
    ensures { result ≡ date + duration }
{
    u64::from(date) + u64::from(duration)
}

// Whether the station is among the listeners, which are bits.
pub fn is_listener(listeners: u32, station: u32) -> bool
    ensures { result ≡ listens listeners station }
{
    station < 32 && (listeners >> station) % 2 == 1
}

// Whether no station beyond the sheet's is among the listeners.
fn listeners_exist(listeners: u32, stations: u32) -> bool
    ensures { result ≡ listeners_exist listeners stations }
{
    stations >= 32 || listeners >> stations == 0
}

// Whether a row lasts, and ends within the cycle.
fn within_cycle(date: u32, duration: u32, cycle: u32) -> bool
    ensures { result ≡ within_cycle date duration cycle }
{
    duration > 0 && ends_at(date, duration) <= u64::from(cycle)
}

fn keep_within(head: Head, k: Keep) -> bool
    ensures { result ≡ keep_within head k }
{
    k.station < head.stations && k.taken < head.variables && k.given < head.variables
}

fn call_within(head: Head, c: Call) -> bool
    ensures { result ≡ call_within head c }
{
    c.station < head.stations
        && c.work <= 255
        && c.inputs.all_below(head.variables)
        && c.output < head.variables
        && within_cycle(c.date, c.duration, head.cycle)
        && tests_within(c.condition, head.variables)
}

fn send_within(head: Head, s: Send) -> bool
    ensures { result ≡ send_within head s }
{
    s.station < head.stations
        && s.variable < head.variables
        && s.listeners > 0
        && listeners_exist(s.listeners, head.stations)
        && !is_listener(s.listeners, s.station)
        && within_cycle(s.date, s.duration, head.cycle)
        && tests_within(s.condition, head.variables)
}

fn fields_within(head: Head, row: Row) -> bool
    ensures { result ≡ fields_within head row }
{
    match row {
        Row::Keep(k) => keep_within(head, k),
        Row::Call(c) => call_within(head, c),
        Row::Send(s) => send_within(head, s),
    }
}

fn is_keep(row: Row) -> bool
    ensures { result ≡ is_keep row }
{
    matches!(row, Row::Keep(_))
}

// Whether only keep rows stand above.
fn only_keeps(above: &[Row]) -> bool
    ensures { result ≡ only_keeps above.now }
{
    above.iter().all(|u| is_keep(*u))
}

fn well_placed(above: &[Row], row: Row) -> bool
    ensures { result ≡ placed above.now row }
{
    match row {
        Row::Keep(_) => above.len() < 16 && only_keeps(above),
        Row::Call(_) | Row::Send(_) => true,
    }
}

// Whether the fields of a row are within their limits, and a keep row stands where it may.
pub fn row_within(head: Head, above: &[Row], row: Row) -> bool
    ensures { result ≡ within head above.now row }
{
    fields_within(head, row) && well_placed(above, row)
}
