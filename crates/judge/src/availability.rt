ghost use Rattle.std.specs.Prelude.{◌≡◌, [], ◌∷◌, map};
ghost use Rattle.sheet.specs.Rows.{inputs_of};
ghost use Rattle.judge.specs.Verdict.{provides, need_at, joined, missing, available, first_unavailable, test_needs, heard_needs, listener_needs, call_needs, send_needs, needs_of};

use crate::condition::all_among;
use crate::fields::{ends_at, is_listener};
use crate::need::{Missing, Need};
use sheet::{Call, Condition, Head, Inputs, Row, Send, Test};

// Whether a row that stands above provides what is needed.
fn is_provider(row: Row, w: Need) -> bool
    ensures { result ≡ provides row w }
{
    match row {
        Row::Keep(k) => k.station == w.station && k.given == w.variable,
        Row::Call(c) => {
            c.station == w.station
                && c.output == w.variable
                && ends_at(c.date, c.duration) <= u64::from(w.date)
                && all_among(c.condition, w.after)
        }
        Row::Send(s) => {
            is_listener(s.listeners, w.station)
                && s.variable == w.variable
                && ends_at(s.date, s.duration) <= u64::from(w.date)
                && all_among(s.condition, w.after)
        }
    }
}

// Whether some row above provides what is needed.
fn is_available(above: &[Row], w: Need) -> bool
    ensures { result ≡ available above.now w }
{
    above.iter().any(|upper| is_provider(*upper, w))
}

// The condition with one more test, where it has fewer than four.
fn joined(condition: Condition, test: Test) -> Condition
    ensures { result ≡ joined condition test }
{
    match condition {
        Condition::Always => Condition::One(test),
        Condition::One(a) => Condition::Two(a, test),
        Condition::Two(a, b) => Condition::Three(a, b, test),
        Condition::Three(a, b, c) => Condition::Four(a, b, c, test),
        Condition::Four(_, _, _, _) => condition,
    }
}

// What a row reads at one station: the rows above it, its date, and the tests that must hold there.
#[derive(Clone, Copy)]
struct Reads<'a> {
    above: &'a [Row],
    station: u32,
    date: u32,
    condition: Condition,
}

impl Reads<'_> {
    // Refuses with the variable where it is not available after the tests given.
    fn require_after(&self, variable: u32, after: Condition) -> Result<(), Missing>
        ensures { missing result ≡ first_unavailable self.now.above.now (need_at self.now.station self.now.date variable after ∷ []) }
    {
        let need = Need {
            station: self.station,
            variable,
            date: self.date,
            after,
        };
        if is_available(self.above, need) {
            Ok(())
        } else {
            Err(Missing { variable })
        }
    }

    // Each tested variable is available after the tests before it, or the first that is not.
    fn require_tests(&self) -> Result<(), Missing>
        ensures { missing result ≡ first_unavailable self.now.above.now (test_needs self.now.station self.now.date self.now.condition) }
    {
        let mut after = Condition::Always;
        for test in self.condition.tests().iter() {
            self.require_after(test.variable, after)?;
            after = joined(after, *test);
        }
        Ok(())
    }

    // The inputs are available after all tests.
    fn require_inputs(&self, inputs: Inputs) -> Result<(), Missing>
        ensures { missing result ≡ first_unavailable self.now.above.now (map (λ v. need_at self.now.station self.now.date v self.now.condition) (inputs_of inputs)) }
    {
        match inputs {
            Inputs::Nothing => Ok(()),
            Inputs::Single(a) => self.require_after(a, self.condition),
            Inputs::Pair(a, b) => {
                self.require_after(a, self.condition)?;
                self.require_after(b, self.condition)
            }
        }
    }
}

fn require_for_call(above: &[Row], c: Call) -> Result<(), Missing>
    ensures { missing result ≡ first_unavailable above.now (call_needs c) }
{
    let reads = Reads {
        above,
        station: c.station,
        date: c.date,
        condition: c.condition,
    };
    reads.require_tests()?;
    reads.require_inputs(c.inputs)
}

// The tested variables are available at a station, if it listens.
fn require_at(above: &[Row], station: u32, s: Send) -> Result<(), Missing>
    ensures { missing result ≡ first_unavailable above.now (heard_needs s station) }
{
    if !is_listener(s.listeners, station) {
        return Ok(());
    }
    let reads = Reads {
        above,
        station,
        date: s.date,
        condition: s.condition,
    };
    reads.require_tests()
}

// The same at all stations that listen, taken rising; beyond the bits of `listeners` there are none.
fn require_at_listeners(above: &[Row], stations: u32, s: Send) -> Result<(), Missing>
    ensures { missing result ≡ first_unavailable above.now (listener_needs s stations 0) }
{
    // Stations are the numbers of bits: no list stands behind them.
    for n in 0..stations.min(32) {
        require_at(above, n, s)?;
    }
    Ok(())
}

// The tests and what is sent are available at the sender, and the tests at each listener.
fn require_for_send(above: &[Row], stations: u32, s: Send) -> Result<(), Missing>
    ensures { missing result ≡ first_unavailable above.now (send_needs stations s) }
{
    let reads = Reads {
        above,
        station: s.station,
        date: s.date,
        condition: s.condition,
    };
    reads.require_tests()?;
    reads.require_after(s.variable, s.condition)?;
    require_at_listeners(above, stations, s)
}

// What a row needs is available, or the first variable that is not.
pub fn require_all(head: Head, above: &[Row], row: Row) -> Result<(), Missing>
    ensures { missing result ≡ first_unavailable above.now (needs_of head row) }
{
    match row {
        Row::Keep(_) => Ok(()),
        Row::Call(c) => require_for_call(above, c),
        Row::Send(s) => require_for_send(above, head.stations, s),
    }
}
