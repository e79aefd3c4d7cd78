// Reads a message. The checks stand in the order in which a message is checked; each hands on its value or refuses.
ghost use Rattle.std.specs.Prelude.{◌≡◌, ℕ, position, ◌+◌, ◌*◌, ◌/◌, ◌≤◌, ◌==◌, length, if◌then◌else◌, Some, None, nat_lt, slice_index};
ghost use Rattle.std.specs.List.{zip};
ghost use Rattle.bundle.specs.Bundles.{units_of};
ghost use Rattle.bundle.specs.Checks.{viewed};
ghost use Rattle.bundle.specs.Stocks.{supply_of};
ghost use Rattle.sheets.specs.Reading.{units_in, line_in, lines_in, read_message, placed};
ghost use Rattle.sheets.specs.Sheets.{bid_of, bids_of, submission_of};

use crate::parts::{Line, Message, Sheet};
use crate::refusals::MessageRefusal;
use bundle::{Bundle, Supply};

const MAX_LINES: u8 = 32;

// The first place where a count is above the most that there is.
fn first_above(counts: &[u8], most: &[u8]) -> Option<usize>
    ensures { result ≡ position (λ (p : ℕ × ℕ). nat_lt p.1 p.0) (zip counts.now most.now) }
{
    counts
        .iter()
        .zip(most)
        .position(|(count, most)| *count > *most)
}

// The units of a line, from a byte for each lot; the first stands at `at` in the message.
// The length is checked once, for the whole message; `at` is told in a refusal, and reads nothing.
#[tactic(auto, using(crate::proofs::Over::few_units))]
fn read_units(counts: &[u8], at: usize, supply: &Supply) -> Result<Bundle, MessageRefusal>
    requires every { length counts.now ≡ length (supply_of supply.now) }
    requires fits { at + length counts.now ≤ usize.MAX }
    ensures { viewed units_of result ≡ units_in (supply_of supply.now) (placed at counts.now) at }
{
    // All where none is above; by `let .. else`, as each check of a message.
    let within = first_above(counts, supply.units().units()).unwrap_or(counts.len());
    let Some(counts) = (within == counts.len()).then_some(counts) else {
        return Err(MessageRefusal::UnitsAboveSupply(at + within));
    };
    Ok(Bundle::new(counts).unwrap())
}

// The line of a row that stands at `at` in the message: four bytes of worth, then the units.
// The length is checked once, for the whole message; `at` is told in a refusal, and reads nothing.
fn read_line(row: &[u8], at: usize, supply: &Supply, account: u64) -> Result<Line, MessageRefusal>
    requires whole { length row.now ≡ 4 + length (supply_of supply.now) }
    requires fits { at + length row.now ≤ usize.MAX }
    ensures { viewed bid_of result ≡ line_in (supply_of supply.now) account (placed at row.now) at }
{
    let (worth, counts) = row.split_first_chunk().unwrap();
    let worth = u32::from_le_bytes(*worth);
    let Some(worth) = (u64::from(worth) <= account).then_some(worth) else {
        return Err(MessageRefusal::WorthAboveAccount(at));
    };
    let units = read_units(counts, at + 4, supply)?;
    Ok(Line { worth, units })
}

// The sheet whose lines are rows of `size` bytes; the first stands at 6 in the message.
// The length is checked once, for the whole message.
fn read_sheet(
    rows: &[u8],
    size: usize,
    supply: &Supply,
    account: u64,
) -> Result<Sheet, MessageRefusal>
    requires each { size ≡ 4 + length (supply_of supply.now) }
    requires few { length rows.now / size ≤ 32 }
    ensures { viewed bids_of result ≡ lines_in (supply_of supply.now) account (placed 6 rows.now) 6 (length rows.now / size) }
{
    let mut sheet = Sheet::new();
    for (k, row) in rows.chunks_exact(size).enumerate() {
        sheet.push(read_line(row, 6 + k * size, supply, account)?);
    }
    Ok(sheet)
}

// The message in `bytes`, or the first refusal; the accounts and the numbers of the last messages are those of the farms, in their order.
pub fn read(
    bytes: &[u8],
    supply: &Supply,
    accounts: &[u64],
    numbers: &[u32],
) -> Result<Message, MessageRefusal>
    ensures { viewed submission_of result ≡ read_message (supply_of supply.now) accounts.now numbers.now bytes.now }
{
    let &[farm, n0, n1, n2, n3, count, ref rows @ ..] = bytes else {
        return Err(MessageRefusal::Short(bytes.len()));
    };
    let Some(account) = accounts.get(usize::from(farm)).copied() else {
        return Err(MessageRefusal::NoFarm(0));
    };
    let last = numbers.get(usize::from(farm)).copied().unwrap_or(0);
    let number = u32::from_le_bytes([n0, n1, n2, n3]);
    let Some(number) = (last < number).then_some(number) else {
        return Err(MessageRefusal::OldNumber(1));
    };
    let Some(count) = (count <= MAX_LINES).then_some(usize::from(count)) else {
        return Err(MessageRefusal::ManyLines(5));
    };
    let size = 4 + supply.units().lots();
    let Some(size) = (bytes.len() == 6 + count * size).then_some(size) else {
        return Err(MessageRefusal::WrongLength(bytes.len()));
    };
    let sheet = read_sheet(rows, size, supply, account)?;
    Ok(Message {
        farm,
        number,
        sheet,
    })
}
