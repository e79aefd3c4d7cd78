// Messages on both sides of each limit.
use crate::answers::{Fault, told};
use crate::samples::two_farms;
use bundle::Bundle;
use sheets::{Line, Message, Sheet, write};
use std::test::Fail;

// What a message is refused with, where farm 0 has sent one under the number 511.
const MESSAGES: [(&[u8], Option<Fault>); 19] = [
    (&[], Some((2, 0))),
    (&[9, 0, 0, 0, 0], Some((2, 5))),
    (&[2, 1, 0, 0, 0, 0], Some((3, 0))),
    (&[1, 1, 0, 0, 0, 0], None),
    (&[1, 0, 0, 0, 0, 0], Some((4, 1))),
    (&[0, 255, 1, 0, 0, 0], Some((4, 1))),
    (&[0, 0, 2, 0, 0, 0], None),
    (&[0, 0, 0, 0, 1, 0], None),
    (&[0, 0, 2, 0, 0, 1, 100, 0, 0, 0, 2], Some((6, 11))),
    (&[0, 0, 2, 0, 0, 1, 100, 0, 0, 0, 2, 3], None),
    (&[0, 0, 2, 0, 0, 1, 101, 0, 0, 0, 2, 3], Some((7, 6))),
    (&[1, 1, 0, 0, 0, 1, 50, 0, 0, 0, 2, 3], None),
    (&[1, 1, 0, 0, 0, 1, 51, 0, 0, 0, 2, 3], Some((7, 6))),
    // a worth of 256 in the second line
    (
        &[1, 1, 0, 0, 0, 2, 50, 0, 0, 0, 2, 3, 0, 1, 0, 0, 0, 0],
        Some((7, 12)),
    ),
    (&[1, 1, 0, 0, 0, 1, 0, 0, 0, 0, 3, 0], Some((8, 10))),
    (&[1, 1, 0, 0, 0, 1, 0, 0, 0, 0, 2, 4], Some((8, 11))),
    // the worth before the units, and the first line before the second
    (&[1, 1, 0, 0, 0, 1, 51, 0, 0, 0, 3, 0], Some((7, 6))),
    (
        &[1, 1, 0, 0, 0, 2, 1, 0, 0, 0, 2, 4, 51, 0, 0, 0, 0, 0],
        Some((8, 11)),
    ),
    (
        &[1, 1, 0, 0, 0, 2, 1, 0, 0, 0, 2, 3, 0, 0, 0, 0, 3, 0],
        Some((8, 16)),
    ),
];

#[test]
fn refusals(rt: HostRuntime) -> Result<(), Fail> {
    let (sale, answer) = two_farms()?.post(&[0, 255, 1, 0, 0, 0]);
    assert_eq!(rt; told(answer), None);
    for (bytes, wanted) in MESSAGES {
        let (_, answer) = sale.post(bytes);
        assert_eq!(rt; told(answer), wanted);
    }
    Ok(())
}

// Lines of no units and no worth: 32 of them, 33 of them, and a byte more or less.
#[test]
fn counts(rt: HostRuntime) -> Result<(), Fail> {
    let sale = two_farms()?;
    let cases = [
        (32, 198, None),
        (32, 197, Some((6, 197))),
        (32, 199, Some((6, 199))),
        (33, 204, Some((5, 5))),
        (33, 198, Some((5, 5))),
    ];
    for (count, size, wanted) in cases {
        let mut bytes = vec![in rt.alloc(); 0, 1, 0, 0, 0, count]?;
        bytes.resize(size, 0)?;
        let (_, answer) = sale.post(&bytes);
        assert_eq!(rt; told(answer), wanted);
    }
    Ok(())
}

// A sheet replaces the farm's last one; a refused message changes nothing.
#[test]
fn replaced(rt: HostRuntime) -> Result<(), Fail> {
    let messages: [(&[u8], usize); 4] = [
        (&[0, 1, 0, 0, 0, 1, 9, 0, 0, 0, 1, 1], 1),
        (&[1, 1, 0, 0, 0, 1, 9, 0, 0, 0, 1, 1], 2),
        (&[0, 1, 0, 0, 0, 0], 2),
        (&[0, 2, 0, 0, 0, 0], 1),
    ];
    let mut sale = two_farms()?;
    for (bytes, standing) in messages {
        let (next, _) = sale.post(bytes);
        sale = next;
        assert_eq!(rt; sale.standing(), standing);
    }
    Ok(())
}

// What is written, and that nothing is where there is no room.
#[test]
fn written(rt: HostRuntime) -> Result<(), Fail> {
    let Some(units) = Bundle::new(&[2, 1]) else {
        return Err(Fail::new("bundle"));
    };
    let line = Line { worth: 77, units };
    let Some(sheet) = Sheet::new().with_line(line) else {
        return Err(Fail::new("sheet"));
    };
    let message = Message {
        farm: 1,
        number: 258,
        sheet,
    };
    let mut out = vec![in rt.alloc(); 9; 13]?;
    assert_eq!(rt; write(&message, &mut out[0..11]), None);
    assert!(rt; out.as_slice() == [9; 13].as_slice());
    assert_eq!(rt; write(&message, &mut out), Some(12));
    assert!(rt; out.as_slice() == [1, 2, 1, 0, 0, 1, 77, 0, 0, 0, 2, 1, 9].as_slice());
    Ok(())
}
