use super::*;
use fault::Refusal;
use sheet::{Call, Condition, Inputs, Row};
use std::test::Fail;

#[test]
fn reckoner_adds_modulo(rt: HostRuntime) {
    let mut plant = Reckoner;
    assert_eq!(rt;
        plant.perform(7, 2, Words::Pair(4294967295, 2)).ok(),
        Some(1)
    );
    assert_eq!(rt; plant.perform(0, 3, Words::Pair(9, 4)).ok(), Some(4));
    assert_eq!(rt; plant.perform(8, 5, Words::Nothing).ok(), None);
}

#[test]
fn panel_answers_the_old_word(rt: HostRuntime) {
    let mut plant = Panel::new();
    assert_eq!(rt; plant.perform(2, 11, Words::Single(5)).ok(), Some(0));
    assert_eq!(rt; plant.perform(2, 10, Words::Nothing).ok(), Some(5));
    assert_eq!(rt; plant.perform(3, 10, Words::Nothing).ok(), Some(0));
}

#[test]
fn script_uses_words_up(rt: HostRuntime) -> Result<(), Fail> {
    let bytes = [4, 0, 7, 1, 3, 9, 5, 0, 8];
    let mut plant = Script::read(&bytes).ok().ok_or("refused")?;
    assert_eq!(rt; plant.perform(0, 20, Words::Nothing).ok(), Some(7));
    assert_eq!(rt; plant.perform(0, 20, Words::Nothing).ok(), Some(8));
    assert_eq!(rt; plant.perform(0, 20, Words::Nothing).ok(), Some(0));
    assert_eq!(rt; plant.perform(1, 20, Words::Nothing).ok(), Some(3));
    Ok(())
}

#[test]
fn script_ends_with_its_pairs(rt: HostRuntime) -> Result<(), Fail> {
    let fault = Script::read(&[1, 0, 7, 0]).err().ok_or("read")?;
    assert!(rt; fault.refusal == Refusal::Trailing && fault.place.0 == 3);
    Ok(())
}

fn call(work: u32) -> Row {
    Row::Call(Call {
        station: 1,
        work,
        inputs: Inputs::Pair(0, 1),
        output: 2,
        date: 0,
        duration: 1,
        condition: Condition::Always,
    })
}

#[test]
fn fit_names_the_first_unknown(rt: HostRuntime) -> Result<(), Fail> {
    let fault = fit_rows(&Reckoner, &[call(3), call(6), call(7)])
        .err()
        .ok_or("fits")?;
    assert!(rt;
        fault.refusal == Refusal::UnknownWork && fault.place.work == 6 && fault.place.row == 1
    );
    Ok(())
}
