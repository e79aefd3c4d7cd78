// Bundles at the edges.
use bundle::{Bundle, Reserve, Supply};
use std::test::Fail;

#[test]
fn places(rt: HostRuntime) -> Result<(), Fail> {
    let supply = Supply::new(&[2, 1, 3])?;
    assert_eq!(rt; supply.bundles(), 24);
    for place in 0..24 {
        let Some(x) = supply.bundle_at(place) else {
            return Err(Fail::new("place"));
        };
        assert!(rt; supply.place(&x) == place && x.fits(&supply.units()));
    }
    assert!(rt; supply.bundle_at(24).is_none());
    let Some(x) = Bundle::new(&[1, 0, 2]) else {
        return Err(Fail::new("bundle"));
    };
    assert_eq!(rt; supply.place(&x), 13);
    Ok(())
}

#[test]
fn steps(rt: HostRuntime) -> Result<(), Fail> {
    let supply = Supply::new(&[2, 1, 3])?;
    let reserve = Reserve::new(&[1, 10, 100])?;
    let mut x = Bundle::empty(3);
    for place in 0..24 {
        assert_eq!(rt; supply.place(&x), place);
        x = supply.next(&x);
    }
    assert!(rt; x.units() == [0, 0, 0].as_slice());
    assert_eq!(rt; reserve.worth(&supply.units()), 312);
    assert_eq!(rt; reserve.worth(&Bundle::empty(2).with_count(1, 7)), 70);
    Ok(())
}

#[test]
fn sums(rt: HostRuntime) -> Result<(), Fail> {
    let Some(x) = Bundle::new(&[255, 3]) else {
        return Err(Fail::new("bundle"));
    };
    let y = Bundle::empty(3).with_count(1, 4).with_count(2, 5);
    let Some(both) = x.plus(&y) else {
        return Err(Fail::new("sum"));
    };
    assert!(rt; both.units() == [255, 7, 5].as_slice());
    assert!(rt; x.plus(&x).is_none() && y.fits(&both) && !both.fits(&y));
    assert!(rt; x.minus(&y).units() == [255, 0].as_slice());
    assert!(rt; Bundle::new(&[0; 13]).is_none());
    Ok(())
}
