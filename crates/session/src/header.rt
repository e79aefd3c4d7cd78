// The opening of a file: a byte counts the lots, each lot has a byte of units and four bytes of reserve; a byte counts the farms,
// each has four bytes of account; the last eight bytes are the company's account.
ghost use Rattle.std.specs.Prelude.{◌≡◌, ◌+◌, ◌*◌, ◌<◌, ◌≤◌, length, drop, map, slice_index};
ghost use Rattle.std.specs.Simd.{first_chunks};
ghost use Rattle.bundle.specs.Checks.{viewed};
ghost use Rattle.sale.specs.States.{state_of};
ghost use Rattle.session.specs.Session.{u64_at, lot_in, account_in, lots_at, accounts_at, lot_count, farm_count, opening_size, opening_in};

use arrayvec::ArrayVec;
use sale::{Lot, OpeningRefusal, Sale};

// The byte at `at`; 0 past the end.
// By places in the file, as the rules of the opening are: where it ends inside, its size is still what its counts say.
fn byte_at(file: &[u8], at: usize) -> u8
    ensures { result ≡ slice_index file.now at }
{
    file.get(at).copied().unwrap_or(0)
}

fn lots_named(file: &[u8]) -> u8
    ensures { result ≡ lot_count file.now }
{
    byte_at(file, 0)
}

fn farms_named(file: &[u8]) -> u8
    ensures { result ≡ farm_count file.now }
{
    byte_at(file, 1 + usize::from(lots_named(file)) * 5)
}

// How many farms the file names.
pub fn farm_count(file: &[u8]) -> usize
    ensures value { result ≡ farm_count file.now }
    ensures small { result ≤ 255 }
{
    usize::from(farms_named(file))
}

// How many bytes the opening has, or would have.
pub(crate) fn size_of_opening(file: &[u8]) -> usize
    ensures { result ≡ opening_size file.now }
{
    2 + usize::from(lots_named(file)) * 5 + usize::from(farms_named(file)) * 4 + 8
}

// So many parts of N bytes, from `from` on.
fn parts<const N: usize>(file: &[u8], from: usize, count: u8) -> &[[u8; N]]
    requires some { 0 < N }
    requires within { from + count * N ≤ length file.now }
    ensures value { result.now ≡ first_chunks N count (drop from file.now) }
    ensures len { length result.now ≡ count }
{
    &file[from..].as_chunks().0[..usize::from(count)]
}

fn read_lot(part: &[u8; 5]) -> Lot
    ensures { result ≡ lot_in part.now }
{
    let [units, a, b, c, d] = *part;
    Lot {
        units,
        reserve: u32::from_le_bytes([a, b, c, d]),
    }
}

fn read_account(part: &[u8; 4]) -> u64
    ensures { result ≡ account_in part.now }
{
    u64::from(u32::from_le_bytes(*part))
}

// The lots of these parts.
// Not one generic function with `read_accounts`: it would have to ask of the closure what each part gives.
#[tactic(auto, using(std::proofs::lemmas::Grind::common_steps))]
fn read_lots(parts: &[[u8; 5]]) -> ArrayVec<Lot, 255>
    requires { length parts.now ≤ 255 }
    ensures { result.items ≡ map lot_in parts.now }
{
    let mut lots = ArrayVec::new();
    for part in parts {
        lots.push(read_lot(part));
    }
    lots
}

// The accounts of these parts.
#[tactic(auto, using(std::proofs::lemmas::Grind::common_steps))]
fn read_accounts(parts: &[[u8; 4]]) -> ArrayVec<u64, 255>
    requires { length parts.now ≤ 255 }
    ensures { result.items ≡ map account_in parts.now }
{
    let mut accounts = ArrayVec::new();
    for part in parts {
        accounts.push(read_account(part));
    }
    accounts
}

fn long_at(file: &[u8], at: usize) -> u64
    requires { at + 8 ≤ length file.now }
    ensures { result ≡ u64_at file.now at }
{
    u64::from_le_bytes(*file[at..].first_chunk().unwrap())
}

// The sale that the file opens; one that ends inside the opening counts as one with no lots.
// By places, as the definitions of an opening have them.
pub(crate) fn open(file: &[u8]) -> Result<Sale, OpeningRefusal>
    ensures { viewed state_of result ≡ opening_in file.now }
{
    let size = size_of_opening(file);
    if file.len() < size {
        return Err(OpeningRefusal::LotCount(0));
    }
    let count = lots_named(file);
    let lots = read_lots(parts(file, 1, count));
    let accounts = read_accounts(parts(file, 2 + usize::from(count) * 5, farms_named(file)));
    let company = long_at(file, size - 8);
    Sale::open(&lots, &accounts, company)
}
