// Whole files that are run to the close.
use crate::answers::{Fault, UNTOLD, all_told, closed};
use crate::cuts::{FILE, cut_in_messages, cut_in_opening, run_fault};
use crate::rows::Rows;
use book::Answer;
use session::run_to_close;
use std::process::Abort;
use std::test::Fail;

// Two lots of one unit at 10, three farms with 200, 100 and 100, and 1,000 in the company's account: 32 bytes; then three messages
// of 12 bytes, which write 120 for both lots, 70 for the first and 60 for the second.
const THREE_FARMS: &[u8] =
    b"\x02\x01\x0a\0\0\0\x01\x0a\0\0\0\x03\xc8\0\0\0\x64\0\0\0\x64\0\0\0\xe8\x03\0\0\0\0\0\0\x0c\0\0\x01\0\0\0\x01\x78\0\0\0\x01\x01\x0c\0\x01\x01\0\0\0\x01\x46\0\0\0\x01\0\x0c\0\x02\x01\0\0\0\x01\x3c\0\0\0\0\x01";

// What a run is refused with; one that is refused has to leave its rows as they were.
fn refused(
    rt: &(impl Abort + AllocGlobal),
    file: &[u8],
    answers: &mut [Answer],
) -> Result<Option<Fault>, Fail> {
    let mut rows = Rows::new(rt.alloc(), (9, 2, 2))?;
    match run_to_close(
        file,
        answers,
        &mut rows.table,
        &mut rows.award,
        &mut rows.charges,
    ) {
        Ok(_) => Ok(None),
        Err(refusal) => {
            assert!(rt; rows.are_unwritten());
            Ok(Some(run_fault(refusal)))
        }
    }
}

#[test]
fn cut_openings(rt: HostRuntime) -> Result<(), Fail> {
    cut_in_opening(&rt, |file, answers| refused(&rt, file, answers))
}

#[test]
fn cut_messages(rt: HostRuntime) -> Result<(), Fail> {
    cut_in_messages(&rt, |file, answers| refused(&rt, file, answers))
}

// A row that is too short for the answers, and a lot of 65 units: no answer is told.
#[test]
fn untold(rt: HostRuntime) -> Result<(), Fail> {
    let mut row = vec![in rt.alloc(); UNTOLD; 2]?;
    assert_eq!(rt; refused(&rt, FILE, &mut row)?, Some((255, 3)));
    assert!(rt; all_told(&row, &[Some((2, 99)); 2]));
    assert!(rt; FILE.len() == 50);
    let mut file = FILE.to_vec(rt.alloc())?;
    file[1] = 65;
    let mut row = vec![in rt.alloc(); UNTOLD; 3]?;
    assert_eq!(rt; refused(&rt, &file, &mut row)?, Some((10, 0)));
    assert!(rt; all_told(&row, &[Some((2, 99)); 3]));
    Ok(())
}

// A whole run to the close, with a table that is just long enough.
#[test]
fn three_farms(rt: HostRuntime) -> Result<(), Fail> {
    let mut answers = vec![in rt.alloc(); UNTOLD; 4]?;
    let mut rows = Rows::new(rt.alloc(), (16, 3, 3))?;
    let session = run_to_close(
        THREE_FARMS,
        &mut answers,
        &mut rows.table,
        &mut rows.award,
        &mut rows.charges,
    )?;
    assert_eq!(rt; closed(session.closing), Ok(130));
    assert!(rt; all_told(&answers, &[None, None, None, Some((2, 99))]));
    assert!(rt; rows.award.as_slice() == [0, 1, 1].as_slice());
    assert!(rt; rows.charges.as_slice() == [0, 60, 50].as_slice());
    let sale = session.sale;
    assert!(rt; sale.accounts() == [200, 40, 50].as_slice() && sale.company() == 1110);
    Ok(())
}

// A table that is one entry short: the messages are answered, and the sale is not closed.
#[test]
fn too_large(rt: HostRuntime) -> Result<(), Fail> {
    let mut answers = vec![in rt.alloc(); UNTOLD; 3]?;
    let mut rows = Rows::new(rt.alloc(), (8, 2, 2))?;
    let session = run_to_close(
        FILE,
        &mut answers,
        &mut rows.table,
        &mut rows.award,
        &mut rows.charges,
    )?;
    assert_eq!(rt; closed(session.closing), Err((15, 0)));
    assert!(rt; all_told(&answers, &[None, Some((7, 6)), Some((2, 0))]));
    assert!(rt; rows.are_unwritten());
    let sale = session.sale;
    assert!(rt; sale.accounts() == [100, 50].as_slice() && sale.company() == 7);
    Ok(())
}
