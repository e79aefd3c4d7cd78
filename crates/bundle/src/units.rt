// A bundle of units.
ghost use Rattle.std.specs.Prelude.{◌≡◌, ℕ, ◌≤◌, length, slice_index};

// A count of units for each of at most twelve lots; the counts past the last lot are 0.
// An array with a count: by rule a bundle is a struct by value with an array of twelve counts, and an `ArrayVec` cannot be copied.
// Contracts speak of the list by the view `units_of`, and there is no `impl Model`: with one they would see only the list, and
// private functions such as `place_of_last` speak of the twelve counts themselves.
#[derive(Clone, Copy)]
pub struct Bundle {
    pub(crate) counts: [u8; 12],
    pub(crate) lots: usize,
    ghost long: { length counts ≡ 12 },
    ghost few: { lots ≤ 12 },
    ghost padded: { (j : ℕ) → lots ≤ j → slice_index counts j ≡ 0 },
}
