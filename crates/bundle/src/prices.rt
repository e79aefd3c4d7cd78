// The reserve.
ghost use Rattle.std.specs.Prelude.{◌≡◌, ℕ, ◌≤◌, length, slice_index};

// The price of a unit of each of at most twelve lots below which the company keeps it: at most 1,000,000; past the last lot 0.
// Not one generic type with `Bundle`: a bundle is by rule a struct of twelve counts, and only prices have a bound.
// An array with a count, since a reserve is copied as a bundle is, and an `ArrayVec` cannot be copied.
// Shown by a view: contracts speak of the list by `prices_of` alone, as those of a bundle do by `units_of`, and a model would make none of them shorter.
#[derive(Clone, Copy)]
pub struct Reserve {
    pub(crate) prices: [u32; 12],
    pub(crate) lots: usize,
    ghost long: { length prices ≡ 12 },
    ghost few: { lots ≤ 12 },
    ghost padded: { (j : ℕ) → lots ≤ j → slice_index prices j ≡ 0 },
    ghost small: { (j : ℕ) → slice_index prices j ≤ 1000000 },
}
