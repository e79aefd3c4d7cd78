// Sample sales, decided; and rows that are lent too short.
use crate::rows::{Lengths, Rows};
use crate::samples::{SALES, Sample, THREE};
use award::{AwardRefusal, decide};
use bundle::{Reserve, Supply};
use sheets::Sheet;
use std::process::Abort;
use std::test::Fail;
use table::row_below;

// What a sample is decided as, in these rows.
fn decided(
    rt: &(impl Abort + AllocGlobal),
    sample: &Sample,
    rows: &mut Rows,
) -> Result<Result<u64, AwardRefusal>, Fail> {
    let supply = Supply::new(sample.terms.units)?;
    let reserve = Reserve::new(sample.terms.prices)?;
    let sheets = sample.sheets(rt.alloc())?;
    Ok(decide(
        &supply,
        &reserve,
        &sheets,
        &mut rows.table,
        &mut rows.award,
        &mut rows.charges,
    ))
}

// With a table that is one entry longer than what is written.
fn comes_out(rt: &(impl Abort + AllocGlobal), sample: &Sample) -> Result<(), Fail> {
    let farms = sample.farms();
    let bundles = Supply::new(sample.terms.units)?.bundles();
    let used = bundles.saturating_mul(farms.saturating_add(1));
    let mut rows = Rows::new(rt.alloc(), (used.saturating_add(1), farms, farms))?;
    assert_eq!(rt; decided(rt, sample, &mut rows)?, Ok(sample.outcome.worth));
    assert!(rt; rows.hold(&sample.outcome));
    assert_eq!(rt; rows.table.get(used), Some(&7));
    Ok(())
}

#[test]
fn samples(rt: HostRuntime) -> Result<(), Fail> {
    for sample in SALES {
        comes_out(&rt, sample)?;
    }
    Ok(())
}

// The lengths that are lent for three farms and four bundles, and what they are answered.
const ROOMS: [(Lengths, Result<u64, AwardRefusal>); 8] = [
    ((16, 3, 3), Ok(130)),
    ((17, 3, 3), Ok(130)),
    ((15, 3, 3), Err(AwardRefusal::Table)),
    ((15, 2, 2), Err(AwardRefusal::Table)),
    ((16, 2, 3), Err(AwardRefusal::Award)),
    ((16, 4, 4), Err(AwardRefusal::Award)),
    ((16, 3, 2), Err(AwardRefusal::Charges)),
    ((16, 3, 4), Err(AwardRefusal::Charges)),
];

#[test]
fn rooms(rt: HostRuntime) -> Result<(), Fail> {
    for (lengths, wanted) in ROOMS {
        let mut rows = Rows::new(rt.alloc(), lengths)?;
        let answer = decided(&rt, &THREE, &mut rows)?;
        assert_eq!(rt; answer, wanted);
        assert!(rt; answer.is_ok() || rows.are_unwritten());
    }
    Ok(())
}

#[test]
fn farms(rt: HostRuntime) -> Result<(), Fail> {
    let supply = Supply::new(&[1])?;
    let reserve = Reserve::new(&[4])?;
    let sheets = vec![in rt.alloc(); Sheet::new(); 49]?;
    let mut rows = Rows::new(rt.alloc(), (100, 49, 49))?;
    let many = decide(
        &supply,
        &reserve,
        &sheets,
        &mut rows.table,
        &mut rows.award,
        &mut rows.charges,
    );
    assert!(rt; many == Err(AwardRefusal::Farms) && rows.are_unwritten());
    let most = decide(
        &supply,
        &reserve,
        &sheets[0..48],
        &mut rows.table,
        &mut rows.award[0..48],
        &mut rows.charges[0..48],
    );
    assert!(rt; most == Ok(4) && rows.award[47] == 0 && rows.award[48] == 7);
    Ok(())
}

#[test]
fn rows_below(rt: HostRuntime) -> Result<(), Fail> {
    let supply = Supply::new(&[1])?;
    let sheets = [Sheet::new(), Sheet::new()];
    let table = [1, 2, 3, 4, 5, 6, 7];
    assert!(rt; row_below(&table, &sheets, &supply, 0) == [3, 4].as_slice());
    assert!(rt; row_below(&table, &sheets, &supply, 1) == [5, 6].as_slice());
    assert!(rt; row_below(&table, &sheets, &supply, 2).is_empty());
    assert!(rt; row_below(&table[0..5], &sheets, &supply, 1).is_empty());
    Ok(())
}
