// Whole files, and files that are cut short.
use crate::answers::{Fault, told};
use crate::cuts::{FILE, cut_in_messages, cut_in_opening, run_fault};
use book::Answer;
use session::run;
use std::test::Fail;

fn refused(file: &[u8], row: &mut [Answer]) -> Option<Fault> {
    run(file, row).err().map(run_fault)
}

#[test]
fn openings(rt: HostRuntime) -> Result<(), Fail> {
    cut_in_opening(&rt, |file, row| Ok(refused(file, row)))
}

#[test]
fn messages(rt: HostRuntime) -> Result<(), Fail> {
    cut_in_messages(&rt, |file, row| Ok(refused(file, row)))
}

// A row that is too short is refused, and left as it was.
#[test]
fn rooms(rt: HostRuntime) -> Result<(), Fail> {
    let mut row = vec![in rt.alloc(); Ok(()); 2]?;
    assert_eq!(rt; refused(FILE, &mut row), Some((255, 3)));
    assert_eq!(rt; told(row[1]), None);
    Ok(())
}
