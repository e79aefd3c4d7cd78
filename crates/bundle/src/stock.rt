// What is for sale.
ghost use Rattle.std.specs.Prelude.{◌≡◌, ℕ, ◌<◌, ◌≤◌, length, slice_index};
ghost use Rattle.bundle.specs.Bundles.{units_of};
ghost use Rattle.bundle.specs.Units.{bundles};

use crate::units::Bundle;

// The units for sale of each lot: 1 to 12 lots, 1 to 64 units of each, and at most 4,096 bundles, which `total` counts.
// Shown by a view, as a bundle is.
#[derive(Clone, Copy)]
pub struct Supply {
    pub(crate) units: Bundle,
    pub(crate) total: usize,
    ghost some: { 1 ≤ length (units_of units) },
    ghost least: { (j : ℕ) → j < length (units_of units) → 1 ≤ slice_index (units_of units) j },
    ghost most: { (j : ℕ) → slice_index (units_of units) j ≤ 64 },
    ghost counted: { total ≡ bundles (units_of units) },
    ghost small: { total ≤ 4096 },
}
