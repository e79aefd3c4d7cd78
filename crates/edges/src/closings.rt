// Sales that take their messages and are closed; and rows of another length.
use crate::answers::{Fault, closed, fault, told, told_in_life};
use crate::rows::{Lengths, Rows};
use crate::samples::{Outcome, SALES, Sample, THREE, Terms, two_farms};
use accounts::close;
use book::Book;
use bundle::{Reserve, Supply};
use sale::{Life, Sale};
use sheets::{Message, Sheet, write};
use std::process::Abort;
use std::test::Fail;

// Farm 1 writes 70 for the first lot, under the number 2.
const AGAIN: &[u8] = &[1, 2, 0, 0, 0, 1, 70, 0, 0, 0, 1, 0];

fn with_sheet(
    rt: &(impl Abort + AllocGlobal),
    sale: Sale,
    farm: u8,
    sheet: Sheet,
) -> Result<Sale, Fail> {
    let message = Message {
        farm,
        number: 1,
        sheet,
    };
    let mut out = vec![in rt.alloc(); 0; 18]?;
    let Some(size) = write(&message, &mut out) else {
        return Err(Fail::new("room"));
    };
    out.truncate(size);
    let (sale, answer) = sale.post(&out);
    assert_eq!(rt; told(answer), None);
    Ok(sale)
}

// One message for each farm, and 1,000 in the company's account.
fn sale_of(
    rt: &(impl Abort + AllocGlobal),
    sample: &Sample,
    accounts: &[u64],
) -> Result<Life, Fail> {
    let lots = sample.terms.lots(rt.alloc())?;
    let sheets = sample.sheets(rt.alloc())?;
    let mut sale = Sale::open(&lots, accounts, 1000)?;
    for (farm, sheet) in sheets.iter().enumerate() {
        sale = with_sheet(rt, sale, u8::try_from(farm)?, *sheet)?;
    }
    Ok(Life::Open(sale))
}

fn three_farms(rt: &(impl Abort + AllocGlobal)) -> Result<Life, Fail> {
    sale_of(rt, &THREE, &[200, 100, 100])
}

// The sale once it is closed.
fn comes_out(rt: &(impl Abort + AllocGlobal), sale: Life, wanted: &Outcome) -> Result<Life, Fail> {
    let farms = wanted.award.len();
    let mut rows = Rows::new(rt.alloc(), (45, farms, farms))?;
    let (sale, answer) = sale.close(&mut rows.table, &mut rows.award, &mut rows.charges);
    assert_eq!(rt; closed(answer), Ok(wanted.worth));
    assert!(rt; rows.hold(wanted));
    Ok(sale)
}

#[test]
fn by_hand(rt: HostRuntime) -> Result<(), Fail> {
    let sale = comes_out(&rt, three_farms(&rt)?, &THREE.outcome)?;
    assert!(rt; sale.accounts() == [200, 40, 50].as_slice() && sale.company() == 1110);
    Ok(())
}

// Of two farms that write the same the second gets the unit, and pays all that it has.
#[test]
fn spent(rt: HostRuntime) -> Result<(), Fail> {
    let sample = Sample {
        terms: Terms {
            units: &[1],
            prices: &[4],
        },
        lines: &[(0, 5, &[1]), (1, 5, &[1])],
        outcome: Outcome {
            award: &[0, 1],
            charges: &[0, 5],
            worth: 5,
        },
    };
    let sale = comes_out(&rt, sale_of(&rt, &sample, &[5, 5])?, &sample.outcome)?;
    assert!(rt; sale.accounts() == [5, 0].as_slice() && sale.company() == 1005);
    Ok(())
}

fn sum(row: &[u64]) -> u64 {
    row.iter().fold(0, |all, part| all.wrapping_add(*part))
}

fn money(sale: &Life) -> u64 {
    sum(sale.accounts()).wrapping_add(sale.company())
}

#[test]
fn money_stays(rt: HostRuntime) -> Result<(), Fail> {
    for sample in SALES {
        let accounts = vec![in rt.alloc(); 200; sample.farms()]?;
        let sale = sale_of(&rt, sample, &accounts)?;
        let after = comes_out(&rt, sale, &sample.outcome)?;
        assert_eq!(rt; money(&after), money(&sale));
        assert_eq!(rt;
            after.company(),
            sum(sample.outcome.charges).wrapping_add(1000)
        );
    }
    Ok(())
}

// Lends rows of these lengths to a close that has to be refused, and has to leave them as they were.
fn refused(
    rt: &(impl Abort + AllocGlobal),
    sale: Life,
    lengths: Lengths,
) -> Result<(Life, Fault), Fail> {
    let mut rows = Rows::new(rt.alloc(), lengths)?;
    let (sale, answer) = sale.close(&mut rows.table, &mut rows.award, &mut rows.charges);
    assert!(rt; rows.are_unwritten());
    match answer {
        Ok(_) => Err(Fail::new("closed")),
        Err(refusal) => Ok((sale, fault(refusal))),
    }
}

// The lengths that are lent for three farms and four bundles, and the first that is wrong.
const ROOMS: [(Lengths, usize); 9] = [
    ((15, 3, 3), 0),
    ((0, 0, 0), 0),
    ((15, 2, 4), 0),
    ((16, 2, 3), 1),
    ((16, 4, 3), 1),
    ((17, 4, 2), 1),
    ((16, 3, 2), 2),
    ((16, 3, 4), 2),
    ((17, 3, 0), 2),
];

// The sale is still open: it takes a message, and is closed.
#[test]
fn rooms(rt: HostRuntime) -> Result<(), Fail> {
    let open = three_farms(&rt)?;
    for (lengths, place) in ROOMS {
        let (sale, given) = refused(&rt, open, lengths)?;
        assert_eq!(rt; given, (15, place));
        assert!(rt; sale.accounts() == [200, 100, 100].as_slice() && sale.company() == 1000);
        let (sale, answer) = sale.post(AGAIN);
        assert_eq!(rt; told_in_life(answer), None);
        let _ = comes_out(&rt, sale, &THREE.outcome)?;
    }
    Ok(())
}

// A table of just the length, and a longer one: what is past the length is left.
#[test]
fn tables(rt: HostRuntime) -> Result<(), Fail> {
    let sale = three_farms(&rt)?;
    for long in 16..18 {
        let mut rows = Rows::new(rt.alloc(), (17, 3, 3))?;
        let (_, answer) = sale.close(&mut rows.table[0..long], &mut rows.award, &mut rows.charges);
        assert_eq!(rt; closed(answer), Ok(130));
        assert!(rt; rows.table[3] == 130 && rows.table[15] == 20 && rows.table[16] == 7);
    }
    Ok(())
}

// Messages and lengths that a closed sale is sent, right ones and wrong ones.
#[test]
fn closed_for_good(rt: HostRuntime) -> Result<(), Fail> {
    let messages: [&[u8]; 3] = [AGAIN, &[], &[9, 0, 0, 0, 0, 0]];
    let mut sale = comes_out(&rt, three_farms(&rt)?, &THREE.outcome)?;
    for bytes in messages {
        let (next, answer) = sale.post(bytes);
        assert_eq!(rt; told_in_life(answer), Some((1, 0)));
        sale = next;
    }
    for lengths in [(16, 3, 3), (15, 3, 3), (16, 2, 3)] {
        let (next, given) = refused(&rt, sale, lengths)?;
        assert_eq!(rt; given, (1, 0));
        sale = next;
    }
    assert!(rt; sale.accounts() == [200, 40, 50].as_slice() && sale.company() == 1110);
    Ok(())
}

// What a book holds once its sale is closed: the number of the last message, an account of 1, and no sheet.
#[test]
fn emptied(rt: HostRuntime) -> Result<(), Fail> {
    let reserve = Reserve::new(&[4])?;
    let Some(book) = Book::open(Supply::new(&[1])?, &[5]) else {
        return Err(Fail::new("book"));
    };
    let (book, _) = book.post(&[0, 1, 0, 0, 0, 1, 5, 0, 0, 0, 1]);
    let mut rows = Rows::new(rt.alloc(), (4, 1, 1))?;
    let (book, _) = close(
        book,
        &reserve,
        &mut rows.table,
        &mut rows.award,
        &mut rows.charges,
    );
    let [sheet] = book.sheets() else {
        return Err(Fail::new("sheets"));
    };
    assert!(rt; book.accounts() == [1].as_slice() && sheet.lines().is_empty());
    let (_, answer) = book.post(&[0, 1, 0, 0, 0, 0]);
    assert_eq!(rt; told(answer), Some((4, 1)));
    let (_, answer) = book.post(&[0, 2, 0, 0, 0, 1, 2, 0, 0, 0, 1]);
    assert_eq!(rt; told(answer), Some((7, 6)));
    let (_, answer) = book.post(&[0, 2, 0, 0, 0, 1, 1, 0, 0, 0, 1]);
    assert_eq!(rt; told(answer), None);
    Ok(())
}

// A sheet replaces the farm's last one; a refused message changes nothing: what a close would then award.
#[test]
fn last_sheets(rt: HostRuntime) -> Result<(), Fail> {
    let messages: [(&[u8], u64, [u64; 2]); 5] = [
        (&[0, 1, 0, 0, 0, 1, 9, 0, 0, 0, 1, 1], 9, [1, 0]),
        (&[1, 1, 0, 0, 0, 1, 8, 0, 0, 0, 1, 1], 17, [1, 1]),
        (&[0, 1, 0, 0, 0, 0], 17, [1, 1]),
        (&[0, 2, 0, 0, 0, 1, 7, 0, 0, 0, 1, 1], 15, [1, 1]),
        (&[0, 3, 0, 0, 0, 0], 8, [0, 1]),
    ];
    let mut sale = two_farms()?;
    for (bytes, worth, award) in messages {
        let (next, _) = sale.post(bytes);
        sale = next;
        let mut rows = Rows::new(rt.alloc(), (36, 2, 2))?;
        let (_, answer) = sale.close(&mut rows.table, &mut rows.award, &mut rows.charges);
        assert_eq!(rt; closed(answer), Ok(worth));
        assert!(rt; rows.award.as_slice() == award.as_slice());
    }
    Ok(())
}
