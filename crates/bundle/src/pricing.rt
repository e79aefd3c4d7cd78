// The reserve: made and read, and what a bundle is worth at it.
ghost use Rattle.std.specs.Prelude.{◌≡◌, ℕ, ◌*◌, ◌≤◌, length, sum_by, slice_index, position, nat_lt, nat_le, ◌||◌};
ghost use Rattle.std.specs.List.{zip, enumerate_from};
ghost use Rattle.bundle.specs.Bundles.{units_of};
ghost use Rattle.bundle.specs.Checks.{viewed};
ghost use Rattle.bundle.specs.Reserves.{prices_of, reserve_in, priced};

use crate::arithmetic::front;
use crate::prices::Reserve;
use crate::refusals::ReserveRefusal;
use crate::units::Bundle;

// Cents a unit.
const MAX_PRICE: u32 = 1_000_000;

// The first lot whose price is too high, or that is past the twelfth.
fn overpriced(prices: &[u32]) -> Option<usize>
    ensures { result ≡ position (λ (p : ℕ × ℕ). nat_lt 1000000 p.1 || nat_le 12 p.0) (enumerate_from 0 prices.now) }
{
    prices
        .iter()
        .enumerate()
        .position(|(lot, price)| *price > MAX_PRICE || lot >= 12)
}

// What so many units of each lot come to.
fn total(prices: &[u32], counts: &[u8]) -> u64
    requires { length prices.now ≤ 12 }
    ensures { result ≡ sum_by (λ (p : ℕ × ℕ). p.0 * p.1) (zip prices.now counts.now) }
{
    prices
        .iter()
        .zip(counts)
        .map(|(price, count)| u64::from(*price) * u64::from(*count))
        .sum()
}

impl Reserve {
    // The reserve at these prices, or the first lot that is wrong.
    pub fn new(prices: &[u32]) -> Result<Reserve, ReserveRefusal>
        ensures { viewed prices_of result ≡ reserve_in prices.now }
    {
        if let Some(lot) = overpriced(prices) {
            return Err(ReserveRefusal { lot });
        }
        Ok(Reserve {
            prices: front(prices),
            lots: prices.len(),
        })
    }

    #[tactic(auto, unfolding(crate::specs::Reserves::prices_of))]
    fn prices(&self) -> &[u32]
        ensures { result.now ≡ prices_of self.now }
    {
        &self.prices[..self.lots]
    }

    // The price of a unit of a lot; 0 where there is no such lot.
    pub fn price(&self, lot: usize) -> u32
        ensures { result ≡ slice_index (prices_of self.now) lot }
    {
        self.prices().get(lot).copied().unwrap_or(0)
    }

    // What a bundle is worth at these prices.
    #[tactic(auto, using(crate::proofs::Worths::priced_zip, crate::proofs::Padding::length_prices))]
    pub fn worth(&self, x: &Bundle) -> u64
        ensures { result ≡ priced (prices_of self.now) (units_of x.now) }
    {
        total(self.prices(), x.units())
    }
}
