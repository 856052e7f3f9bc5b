use fault::{BytesPlace, Fault, Offset, Place, Refusal, RowPlace};
use sheet::{Row, read, write};
use std::test::Fail;
use wire::{Reader, number_bytes, put_numbers};

#[test]
fn refusals_have_numbers(rt: HostRuntime) {
    assert!(rt; Refusal::EndsEarly.number() == 1);
    assert!(rt; Refusal::Stopped.number() == 19);
    let fault = Fault {
        refusal: Refusal::Clash,
        place: RowPlace::Rows { lower: 2, upper: 1 },
    };
    let shown: Fault<Place> = fault.carried();
    assert!(rt; shown.place == Place::Rows { lower: 2, upper: 1 });
}

#[test]
fn numbers_are_read(rt: HostRuntime) {
    let mut reader = Reader::new(&[0xAC, 0x02, 0x80, 0x00]);
    assert!(rt; reader.number() == Ok(300));
    assert!(rt; reader.pos() == 2);
    assert!(rt; reader.since(0).len() == 2);
    let refused = Fault {
        refusal: Refusal::NotShortest,
        place: Offset(2),
    };
    assert!(rt; reader.number() == Err(refused));
    assert!(rt; reader.pos() == 2);
}

#[test]
fn numbers_are_written(rt: HostRuntime) {
    let bytes = number_bytes(300);
    assert!(rt; bytes.as_slice() == [0xAC, 0x02].as_slice());
    let mut out = [9u8; 4];
    assert!(rt; put_numbers(&mut out, 1, &[300]) == Ok(3));
    assert!(rt; out == [9, 0xAC, 0x02, 9]);
    assert!(rt; put_numbers(&mut out, 3, &[300]) == Err(2));
}

#[test]
fn sheets_are_read_and_written(rt: HostRuntime) -> Result<(), Fail> {
    let bytes = [1, 1, 2, 5, 1, 0, 0, 1, 0, 7];
    let mut rows = [Row::default(); 2];
    let head = match read(&bytes, &mut rows) {
        Ok(head) => head,
        Err(_) => return Err(Fail::new("refused")),
    };
    assert!(rt; head.stations == 1 && head.variables == 2 && head.cycle == 5 && head.rows == 1);
    let mut out = [0u8; 12];
    assert!(rt; matches!(write(&head, &rows[0..1], &mut out), Ok(10)));
    assert!(rt; out[0] == 1 && out[9] == 7 && out[10] == 0);
    let mut short = [0u8; 9];
    let refusal = write(&head, &rows[0..1], &mut short);
    assert!(rt;
        matches!(
            refusal,
            Err(Fault {
                refusal: Refusal::TooShort,
                place: BytesPlace::Needed(10)
            })
        )
    );
    Ok(())
}

#[test]
fn bad_bytes_are_refused(rt: HostRuntime) {
    let mut rows = [Row::default(); 1];
    let early = read(&[1, 1, 2, 5], &mut rows);
    assert!(rt;
        matches!(
            early,
            Err(Fault {
                refusal: Refusal::EndsEarly,
                place: BytesPlace::Offset(4)
            })
        )
    );
    let edition = read(&[2], &mut rows);
    assert!(rt;
        matches!(
            edition,
            Err(Fault {
                refusal: Refusal::Strange,
                place: BytesPlace::Offset(0)
            })
        )
    );
    let room = read(&[1, 9, 2, 5, 2], &mut rows);
    assert!(rt;
        matches!(
            room,
            Err(Fault {
                refusal: Refusal::TooShort,
                place: BytesPlace::Needed(2)
            })
        )
    );
    let head = read(&[1, 9, 2, 5, 1], &mut rows);
    assert!(rt;
        matches!(
            head,
            Err(Fault {
                refusal: Refusal::HeadOutside,
                place: BytesPlace::Head
            })
        )
    );
    let trailing = read(&[1, 1, 2, 5, 0, 9], &mut rows);
    assert!(rt;
        matches!(
            trailing,
            Err(Fault {
                refusal: Refusal::Trailing,
                place: BytesPlace::Offset(5)
            })
        )
    );
}
