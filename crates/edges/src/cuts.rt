// A file that is cut short, and what a run of it has to be refused with or to tell.
use crate::answers::{Fault, UNTOLD, fault, told};
use book::Answer;
use session::{RunRefusal, message_count};
use std::process::Abort;
use std::test::Fail;

// One lot of 2 units at 5, two farms with 100 and 50, and 7 in the company's account: 23 bytes; then two messages of 11 bytes,
// the second with a worth above its account, and a byte more.
pub const FILE: &[u8] =
    b"\x01\x02\x05\0\0\0\x02\x64\0\0\0\x32\0\0\0\x07\0\0\0\0\0\0\0\x0b\0\0\x01\0\0\0\x01\x3c\0\0\0\x02\x0b\0\x01\x01\0\0\0\x01\x3c\0\0\0\x02\0";

// For the first so many bytes: how many messages there are, and what the last of them is told.
const CUTS: [(usize, usize, Option<Fault>); 6] = [
    (24, 1, Some((2, 0))),
    (28, 1, Some((2, 3))),
    (35, 1, Some((6, 10))),
    (36, 1, None),
    (49, 2, Some((7, 6))),
    (50, 3, Some((2, 0))),
];

// A row that is too short has no number in the rules: 255 stands for it here, so that whatever a run is refused with is one `Fault`.
pub fn run_fault(refusal: RunRefusal) -> Fault {
    match refusal {
        RunRefusal::Opening(refusal) => fault(refusal),
        RunRefusal::Room(count) => (255, count),
    }
}

// Runs the file cut within its opening, where it is refused, and just behind it, where it has no message.
pub fn cut_in_opening<F: Fn(&[u8], &mut [Answer]) -> Result<Option<Fault>, Fail>>(
    rt: &(impl Abort + AllocGlobal),
    refused: F,
) -> Result<(), Fail>
    requires { F.IsAlwaysCallable refused }
{
    assert!(rt; FILE.len() == 50);
    for size in 0..23 {
        assert_eq!(rt; refused(&FILE[0..size], &mut [])?, Some((9, 0)));
    }
    assert_eq!(rt; refused(&FILE[0..23], &mut [])?, None);
    assert_eq!(rt; message_count(&FILE[0..23]), 0);
    Ok(())
}

// Runs the file cut within its messages, with a row for three answers.
pub fn cut_in_messages<F: Fn(&[u8], &mut [Answer]) -> Result<Option<Fault>, Fail>>(
    rt: &(impl Abort + AllocGlobal),
    refused: F,
) -> Result<(), Fail>
    requires { F.IsAlwaysCallable refused }
{
    assert!(rt; FILE.len() == 50);
    for (size, count, wanted) in CUTS {
        assert!(rt; size <= 50);
        let mut row = vec![in rt.alloc(); UNTOLD; 3]?;
        assert_eq!(rt; message_count(&FILE[0..size]), count);
        assert_eq!(rt; refused(&FILE[0..size], &mut row)?, None);
        let last = row.iter().take(count).last().copied();
        assert_eq!(rt; last.map(told), Some(wanted));
    }
    Ok(())
}
