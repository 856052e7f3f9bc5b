use crate::{read, write};
use netcode::Step;
use std::test::Fail;

const FILE: [u8; 10] = [1, 1, 1, 2, 2, 1, 0xAC, 2, 0, 2];

#[test]
fn there_and_back(rt: HostRuntime) -> Result<(), Fail> {
    let mut steps = [Step::Clear; 4];
    let Ok(layout) = read(&FILE, &mut steps) else {
        return Err(Fail::new("refused"));
    };
    assert_eq!(rt; (layout.lengths[0], layout.lengths[1]), (1, 2));
    let future = Step::Future {
        ticks: 300,
        address: 0,
    };
    assert!(rt; steps[1] == future && steps[3] == Step::Clear);
    let mut out = [7; 12];
    assert_eq!(rt; write(&layout, &steps, &mut out).ok(), Some(10));
    assert_eq!(rt; (out[6], out[9], out[10]), (0xAC, 2, 7));
    assert_eq!(rt; write(&layout, &steps, &mut [0; 9]).ok(), None);
    Ok(())
}

// The number of the refusal of these bytes, with room for two steps.
fn refused(bytes: &[u8]) -> u8 {
    match read(bytes, &mut [Step::Clear; 2]) {
        Ok(_) => 0,
        Err(fault) => fault.refusal.number(),
    }
}

#[test]
fn refusals(rt: HostRuntime) {
    assert_eq!(rt;
        (refused(&FILE), refused(&[2]), refused(&[1, 9])),
        (4, 3, 6)
    );
    assert_eq!(rt;
        (
            refused(&[1, 1, 1, 9]),
            refused(&[1, 1, 0, 0, 0]),
            refused(&[1]),
        ),
        (3, 5, 1)
    );
}
