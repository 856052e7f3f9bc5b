use bench::Run;
use fault::{Refusal, TickPlace};
use netcode::{Layout, Step};
use plant::Reckoner;
use semantics::{Reply, Request};
use sheet::{Inputs, Relation};
use std::test::Fail;

// One station: its work program has three steps, and its line program one.
fn layout() -> Layout {
    let mut lengths = [0; 16];
    lengths[0] = 3;
    lengths[1] = 1;
    Layout {
        stations: 1,
        lengths,
    }
}

// Every third tick a work gives 1, which is stored two ticks later. The line program has one step.
fn calling(rt: &HostRuntime, line: Step) -> Result<Vec<Step>, Fail> {
    let steps = [
        Step::Call {
            row: 7,
            work: 5,
            inputs: Inputs::Nothing,
            output: 4,
            duration: 2,
        },
        Step::Future {
            ticks: 3,
            address: 0,
        },
        Step::Halt,
        line,
    ];
    Ok(steps.to_vec(rt.alloc())?)
}

#[test]
fn a_call_is_stored_after_its_duration(rt: HostRuntime) -> Result<(), Fail> {
    let mut plant = Reckoner;
    let Ok(mut run) = Run::make(layout(), calling(&rt, Step::Halt)?) else {
        return Err(Fail::new("not made"));
    };
    assert!(rt; run.tick(&mut plant).is_ok());
    assert!(rt; matches!(run.word_at(0, 4), Ok(None)));
    assert!(rt; run.tick(&mut plant).is_ok());
    assert!(rt; matches!(run.word_at(0, 4), Ok(Some(1))));
    assert_eq!(rt; run.rehearse(&mut plant, 5).count, 5);
    let Ok(mark) = run.mark_at(7) else {
        return Err(Fail::new("no mark"));
    };
    assert!(rt; mark.count == 3 && mark.tick == 6 && mark.given == Some(1));
    assert!(rt; run.word_at(1, 0).is_err() && run.mark_at(128).is_err());
    Ok(())
}

#[test]
fn an_empty_place_stops_the_run(rt: HostRuntime) -> Result<(), Fail> {
    let steps = [
        Step::Test {
            variable: 0,
            relation: Relation::Equal,
            word: 0,
            address: 2,
        },
        Step::Halt,
        Step::Halt,
        Step::Halt,
    ];
    let mut plant = Reckoner;
    let Ok(mut run) = Run::make(layout(), steps.to_vec(rt.alloc())?) else {
        return Err(Fail::new("not made"));
    };
    let requests = [Request::Rehearse(2), Request::Tick];
    let mut replies = [Reply::Granted; 2];
    assert!(rt;
        run.serve_all(&mut plant, &requests, &mut replies[0..1])
            .is_err()
    );
    assert!(rt; run.serve_all(&mut plant, &requests, &mut replies).is_ok());
    let Reply::Made {
        count: 0,
        ended: Some(fault),
    } = replies[0]
    else {
        return Err(Fail::new("not refused"));
    };
    assert!(rt; fault.refusal == Refusal::EmptyPlace);
    assert!(rt;
        matches!(
            fault.place,
            TickPlace::Step {
                program: 0,
                address: 0,
            }
        )
    );
    match replies[1] {
        Reply::Refused(fault) => {
            assert!(rt; fault.refusal == Refusal::Stopped);
            Ok(())
        },
        _ => Err(Fail::new("not stopped")),
    }
}

#[test]
fn a_program_without_halt_is_not_run(rt: HostRuntime) -> Result<(), Fail> {
    match Run::make(layout(), calling(&rt, Step::Clear)?) {
        Ok(_) => Err(Fail::new("made")),
        Err((_, steps, fault)) => {
            assert!(rt; fault.refusal == Refusal::BrokenProgram && fault.place.program == 1);
            assert_eq!(rt; steps.len(), 4);
            Ok(())
        }
    }
}
