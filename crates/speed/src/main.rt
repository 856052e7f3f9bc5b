#![tactic(auto)]

// How long a tick takes. With the argument `dense`, `sparse` or `idle` it rehearses 16,777,215 ticks of such a sheet and
// prints the nanoseconds a tick; without arguments it prints nothing.
use anyhow::anyhow;
use netcode::Step;
use plant::Reckoner;
use rehearsal::run_sheet;
use semantics::{Reply, Request};
use sheet::{Call, Condition, Head, Inputs, Relation, Row, Send, Test};
use stages::Draft;
use std::env;
use std::time::Instant;

const LIMIT: u32 = 16777215;

// A call that answers 1 into a variable, for one tick.
fn call(station: u32, output: u32, date: u32) -> Row {
    Row::Call(Call {
        station,
        work: 5,
        inputs: Inputs::Nothing,
        output,
        date,
        duration: 1,
        condition: Condition::Always,
    })
}

// A send to all other stations, for one tick.
fn send(variable: u32, date: u32, condition: Condition) -> Row {
    Row::Send(Send {
        station: 0,
        variable,
        listeners: 254,
        date,
        duration: 1,
        condition,
    })
}

fn equal(word: u32) -> Condition {
    Condition::One(Test {
        variable: 0,
        relation: Relation::Equal,
        word,
    })
}

// Every unit is due at every tick but the first of its cycle of eight: 64 calls, a send at a date of its own, one that
// tells variable 0 to all, and at each later date ten sends of which the last is performed.
fn dense_row(n: u32) -> Row {
    if n < 64 {
        call(n % 8, n, n / 8)
    } else if n == 64 {
        send(0, 1, Condition::Always)
    } else if n < 125 {
        let k = n - 65;
        send(0, 2 + k / 10, equal(10 - k % 10))
    } else {
        send(0, 7, equal(n))
    }
}

// The same rows, spread over the longest cycle.
fn sparse_row(n: u32) -> Row {
    if n < 64 {
        call(n % 8, n, 1000 * (n / 8))
    } else {
        send(0, 8000 + 800 * (n % 64), Condition::Always)
    }
}

// Rehearses a sheet with this head whose row of each number the rule gives.
fn measure<F: Fn(u32) -> Row>(rt: &HostRuntime, head: Head, row: F) -> anyhow::Result<()>
    requires { F.IsAlwaysCallable row }
{
    let mut rows = vec![in rt.alloc(); Row::default(); 128]?;
    for (n, place) in (0..128u32).zip(rows.iter_mut()) {
        *place = row(n);
    }
    let Ok(draft) = Draft::of(head, rows) else {
        return Err(anyhow!("no draft"));
    };
    let Ok(sheet) = draft.accept() else {
        return Err(anyhow!("not accepted"));
    };
    let steps = vec![in rt.alloc(); Step::Halt; 32768]?;
    let mut replies = [Reply::Granted];
    let start = Instant::now(rt)?;
    let ran = run_sheet(
        sheet,
        steps,
        &mut Reckoner,
        &[Request::Rehearse(LIMIT)],
        &mut replies,
    );
    let taken = start.elapsed(rt)?;
    if ran.is_err() {
        return Err(anyhow!("not run"));
    }
    let nanos = taken.as_nanos() / u128::from(LIMIT);
    println!(rt; "{nanos} ns a tick")?;
    Ok(())
}

fn head(cycle: u32, rows: u32) -> Head {
    Head {
        stations: 8,
        variables: 64,
        cycle,
        rows,
    }
}

fn run(rt: &HostRuntime) -> anyhow::Result<()> {
    for word in env::args(rt)?.skip(1) {
        match word.as_str() {
            "dense" => measure(rt, head(8, 128), dense_row)?,
            "sparse" => measure(rt, head(65535, 128), sparse_row)?,
            _ => measure(rt, head(65535, 0), sparse_row)?,
        }
    }
    Ok(())
}

fn main(rt: HostRuntime) -> anyhow::Result<()> {
    run(&rt)
}
