// Sheets, line by line.
ghost use Rattle.std.specs.Prelude.{◌≡◌, [], ◌∷◌, ◌++◌, map, length, if◌then◌else◌, Some, None, nat_lt, ◌<◌};
ghost use Rattle.std.specs.Option.{option_map};
ghost use Rattle.sheets.specs.Sheets.{bid_of, bids_of};

use crate::parts::{Line, Sheet};
use bundle::Bundle;

// No units, and no worth.
// By hand: no `Default` is derived for a struct with a ghost field.
impl Default for Line {
    ghost is_default = { λ l. bid_of l ≡ record { want = []; value = 0 } };

    fn default() -> Line {
        Line {
            worth: 0,
            units: Bundle::default(),
        }
    }
}

// No lines.
// By hand: no `Default` is derived for a struct with a ghost field.
impl Default for Sheet {
    ghost is_default = { λ s. bids_of s ≡ [] };

    fn default() -> Sheet {
        Sheet::new()
    }
}

impl Sheet {
    // A sheet of no lines.
    #[tactic(auto, unfolding(crate::specs::Sheets::bids_of))]
    pub fn new() -> Sheet
        ensures { bids_of result ≡ [] }
    {
        Sheet {
            lines: [Line::default(); 32],
            count: 0,
        }
    }

    // The sheet with one line more; `None` where it has 32.
    #[tactic(auto, using(crate::proofs::Over::bid_count))]
    pub fn with_line(mut self, line: Line) -> Option<Sheet>
        ensures { option_map bids_of result ≡ (if nat_lt (length (bids_of self)) 32 then Some (bids_of self ++ bid_of line ∷ []) else None) }
    {
        if self.count == 32 {
            return None;
        }
        self.push(line);
        Some(self)
    }

    // One line more; there is room for it.
    #[tactic(auto, using(crate::proofs::Over::bid_count), unfolding(crate::specs::Sheets::bids_of))]
    pub(crate) fn push(&mut self, line: Line)
        requires { length (bids_of self.old) < 32 }
        ensures { bids_of self.new ≡ bids_of self.old ++ bid_of line ∷ [] }
    {
        self.lines[self.count] = line;
        self.count += 1;
    }

    // Its lines.
    #[tactic(auto, unfolding(crate::specs::Sheets::bids_of))]
    pub fn lines(&self) -> &[Line]
        ensures { map bid_of result.now ≡ bids_of self.now }
    {
        &self.lines[..self.count]
    }
}
