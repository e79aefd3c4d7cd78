// Openings on both sides of each limit.
use crate::answers::{Fault, fault};
use crate::samples::Terms;
use sale::{Lot, Sale};
use std::test::Fail;

// The units of the lots, and their reserves; then what they are refused with.
const LOTS: [(&[u8], &[u32], Option<Fault>); 13] = [
    (&[], &[], Some((9, 0))),
    (&[1; 12], &[0; 12], None),
    (&[1; 13], &[0; 13], Some((9, 0))),
    (&[0], &[0], Some((10, 0))),
    (&[64], &[0], None),
    (&[65], &[0], Some((10, 0))),
    // 4,096 bundles, and 4,100
    (&[63, 63], &[0, 0], None),
    (&[40, 49, 1], &[0, 0, 0], Some((10, 2))),
    (&[1, 0, 65], &[0, 0, 0], Some((10, 1))),
    (&[1], &[1_000_000], None),
    (&[1, 1], &[0, 1_000_001], Some((11, 1))),
    // all units are looked at before any reserve
    (&[1, 0], &[1_000_001, 0], Some((10, 1))),
    (
        &[1, 1, 1],
        &[1_000_000, 1_000_001, 1_000_001],
        Some((11, 1)),
    ),
];

// The accounts of the farms and of the company.
const ACCOUNTS: [(&[u64], u64, Option<Fault>); 8] = [
    (&[], 0, Some((12, 0))),
    (&[0; 48], 0, None),
    (&[0; 49], 0, Some((12, 0))),
    (&[1_000_000_000], 0, None),
    (&[0, 1_000_000_001], 0, Some((13, 1))),
    (&[0], 1_000_000_000_000_000, None),
    (&[0], 1_000_000_000_000_001, Some((14, 0))),
    (&[1_000_000_001], 1_000_000_000_000_001, Some((13, 0))),
];

fn refused(lots: &[Lot], accounts: &[u64], company: u64) -> Option<Fault> {
    Sale::open(lots, accounts, company).err().map(fault)
}

#[test]
fn lots(rt: HostRuntime) -> Result<(), Fail> {
    for (units, prices, wanted) in LOTS {
        let lots = Terms { units, prices }.lots(rt.alloc())?;
        assert_eq!(rt; refused(&lots, &[0], 0), wanted);
    }
    Ok(())
}

#[test]
fn accounts(rt: HostRuntime) {
    let lots = [Lot {
        units: 1,
        reserve: 0,
    }];
    for (accounts, company, wanted) in ACCOUNTS {
        assert_eq!(rt; refused(&lots, accounts, company), wanted);
    }
}
