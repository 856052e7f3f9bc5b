use crate::judge;
use fault::{Fault, RowPlace};
use sheet::{Call, Condition, Head, Inputs, Keep, Relation, Row, Send, Test};

const HEAD: Head = Head {
    stations: 2,
    variables: 2,
    cycle: 10,
    rows: 3,
};

fn call(output: u32, date: u32, condition: Condition) -> Row {
    Row::Call(Call {
        station: 0,
        work: 5,
        inputs: Inputs::Nothing,
        output,
        date,
        duration: 2,
        condition,
    })
}

fn send(date: u32, duration: u32) -> Row {
    Row::Send(Send {
        station: 0,
        variable: 0,
        listeners: 2,
        date,
        duration,
        condition: Condition::Always,
    })
}

fn is(variable: u32, word: u32) -> Test {
    Test {
        variable,
        relation: Relation::Equal,
        word,
    }
}

// The number of the refusal and the numbers of its place; all 0 for none.
fn shown(verdict: Option<Fault<RowPlace>>) -> (u8, usize, usize) {
    match verdict {
        None => (0, 0, 0),
        Some(f) => match f.place {
            RowPlace::Row(row) => (f.refusal.number(), row, 0),
            RowPlace::Rows { lower, upper } => (f.refusal.number(), lower, upper),
            RowPlace::Variable { row, variable } => (f.refusal.number(), row, variable as usize),
        },
    }
}

fn verdict(rows: &[Row]) -> (u8, usize, usize) {
    shown(judge(&HEAD, rows))
}

#[test]
fn fields_and_tests(rt: HostRuntime) {
    let kept = Row::Keep(Keep {
        station: 0,
        taken: 0,
        given: 1,
        first: 7,
    });
    let twice = Condition::Two(is(0, 1), is(0, 2));
    assert_eq!(rt; verdict(&[kept, call(0, 0, Condition::Always)]), (0, 0, 0));
    assert_eq!(rt; verdict(&[call(0, 0, Condition::Always), kept]), (7, 1, 0));
    assert_eq!(rt; verdict(&[call(0, 9, Condition::Always)]), (7, 0, 0));
    assert_eq!(rt; verdict(&[kept, call(0, 0, twice)]), (8, 1, 0));
    assert_eq!(rt; verdict(&[kept, call(1, 0, Condition::Always)]), (9, 1, 0));
}

#[test]
fn overlaps_and_availability(rt: HostRuntime) {
    let first = call(0, 0, Condition::Always);
    assert_eq!(rt; verdict(&[first, call(1, 2, Condition::Always)]), (0, 0, 0));
    assert_eq!(rt;
        verdict(&[first, call(1, 1, Condition::Always)]),
        (10, 1, 0)
    );
    assert_eq!(rt; verdict(&[first, send(3, 2), send(5, 1)]), (0, 0, 0));
    assert_eq!(rt; verdict(&[first, send(3, 2), send(4, 1)]), (10, 2, 1));
    assert_eq!(rt; verdict(&[first, send(1, 2)]), (11, 1, 0));
    assert_eq!(rt;
        verdict(&[first, call(1, 2, Condition::One(is(1, 4)))]),
        (11, 1, 1)
    );
}
