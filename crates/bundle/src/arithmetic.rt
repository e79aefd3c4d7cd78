// Bundles: made, compared, added and taken away.
ghost use Rattle.std.specs.Prelude.{◌≡◌, ℕ, Bool, true, [], ◌&&◌, fold, nat_le, ◌≤◌, min, length, replicate, if◌then◌else◌, Some, None, nat_lt, slice_index, slice_index_or, slice_set, take, ◌<◌};
ghost use Rattle.std.specs.List.{zip};
ghost use Rattle.std.specs.Option.{option_map};
ghost use Rattle.bundle.specs.Bundles.{units_of};
ghost use Rattle.bundle.specs.Units.{plus, less, within};

use crate::units::Bundle;
use std::array;

// Whether each count is at most the one in its place.
// All twelve are compared, with no way out between two of them: so there is no branch, where the table asks this most often.
fn all_within(counts: &[u8], most: &[u8]) -> bool
    ensures { result ≡ fold (λ (t : Bool) (p : ℕ × ℕ). t && nat_le p.0 p.1) true (zip counts.now most.now) }
{
    counts
        .iter()
        .zip(most)
        .fold(true, |fits, (count, most)| fits & (*count <= *most))
}

// An array of twelve with these items at its front, and defaults behind them.
// An array, for the reason that stands at `Bundle`.
pub(crate) fn front<T: Copy + Default>(items: &[T]) -> [T; 12]
    requires { length items.now ≤ 12 }
    ensures long { length result ≡ 12 }
    ensures same { take (length items.now) result ≡ items.now }
    ensures rest { (j : ℕ) (d : T) → length items.now ≤ j → T.is_default d → T.is_default (slice_index_or result j d) }
{
    let mut all = [T::default(); 12];
    all[..items.len()].copy_from_slice(items);
    all
}

// No lots.
// By hand: no `Default` is derived for a struct with a ghost field.
impl Default for Bundle {
    ghost is_default = { λ b. units_of b ≡ [] };

    fn default() -> Bundle {
        Bundle::empty(0)
    }
}

impl Bundle {
    // No units of so many lots, at most twelve.
    #[tactic(auto, unfolding(crate::specs::Bundles::units_of))]
    pub fn empty(lots: usize) -> Bundle
        ensures { units_of result ≡ replicate (min lots 12) 0 }
    {
        Bundle {
            counts: [0; 12],
            lots: lots.min(12),
        }
    }

    // The bundle of these counts; `None` for more than twelve lots.
    #[tactic(auto, unfolding(crate::specs::Bundles::units_of))]
    pub fn new(counts: &[u8]) -> Option<Bundle>
        ensures { option_map units_of result ≡ (if nat_lt 12 (length counts.now) then None else Some counts.now) }
    {
        let lots = counts.len();
        if lots > 12 {
            return None;
        }
        Some(Bundle {
            counts: front(counts),
            lots,
        })
    }

    // The count of each lot.
    #[tactic(auto, unfolding(crate::specs::Bundles::units_of))]
    pub fn units(&self) -> &[u8]
        ensures { result.now ≡ units_of self.now }
    {
        &self.counts[..self.lots]
    }

    #[tactic(auto, using(crate::proofs::Padding::length_units))]
    pub fn lots(&self) -> usize
        ensures value { result ≡ length (units_of self.now) }
        ensures few { result ≤ 12 }
    {
        self.lots
    }

    // The units of a lot; none of a lot that there is not.
    pub fn count(&self, lot: usize) -> u8
        ensures { result ≡ slice_index (units_of self.now) lot }
    {
        self.units().get(lot).copied().unwrap_or(0)
    }

    // The bundle with another count of a lot; as it is where there is no such lot.
    #[tactic(auto, using(crate::proofs::Padding::length_units), unfolding(crate::specs::Bundles::units_of))]
    pub fn with_count(mut self, lot: usize, count: u8) -> Bundle
        ensures { units_of result ≡ slice_set (units_of self) lot count }
    {
        if lot < self.lots {
            self.counts[lot] = count;
        }
        self
    }

    // Whether there is at least as much of every lot in `other`.
    #[tactic(auto, using(crate::proofs::Padding::counts_within))]
    pub fn fits(&self, other: &Bundle) -> bool
        ensures { result ≡ within (units_of self.now) (units_of other.now) }
    {
        all_within(&self.counts, &other.counts)
    }

    // What is left once `other` is taken away; nothing of a lot that there is too little of.
    pub fn minus(&self, other: &Bundle) -> Bundle
        ensures { units_of result ≡ less (units_of self.now) (units_of other.now) }
    {
        let counts = array::from_fn(|lot| self.counts[lot].saturating_sub(other.counts[lot]));
        Bundle {
            counts,
            lots: self.lots,
        }
    }

    // Both together; `None` where a count would not fit its byte.
    pub fn plus(&self, other: &Bundle) -> Option<Bundle>
        ensures { option_map units_of result ≡ (if within (plus (units_of self.now) (units_of other.now)) (replicate 12 255) then Some (plus (units_of self.now) (units_of other.now)) else None) }
    {
        let mut counts = self.counts;
        // By place: behind a zip over `iter_mut` nothing is known of what was written (tried), and `array::try_from_fn` does not tie its
        // calls to the closure that is passed.
        for (lot, more) in other.counts.iter().enumerate() {
            counts[lot] = counts[lot].checked_add(*more)?;
        }
        Some(Bundle {
            counts,
            lots: self.lots.max(other.lots),
        })
    }
}
