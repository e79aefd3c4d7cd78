// Rows to lend, with a seven at each place that is not written.
ghost use Rattle.std.specs.Prelude.{◌≡◌, length, IfOk};

use crate::samples::Outcome;
use std::alloc::{AllocError, Global};

// The lengths of a table, an award and charges.
pub type Lengths = (usize, usize, usize);

#[derive(Drop)]
pub struct Rows {
    pub table: Vec<u64>,
    pub award: Vec<u64>,
    pub charges: Vec<u64>,
}

impl Rows {
    pub fn new(heap: Global, lengths: Lengths) -> Result<Rows, AllocError>
        ensures table { IfOk result (λ rows. length rows.table.items ≡ lengths.0) }
        ensures award { IfOk result (λ rows. length rows.award.items ≡ lengths.1) }
        ensures charges { IfOk result (λ rows. length rows.charges.items ≡ lengths.2) }
    {
        let (table, award, charges) = lengths;
        Ok(Rows {
            table: vec![in heap; 7; table]?,
            award: vec![in heap; 7; award]?,
            charges: vec![in heap; 7; charges]?,
        })
    }

    pub fn hold(&self, wanted: &Outcome) -> bool {
        self.award.as_slice() == wanted.award && self.charges.as_slice() == wanted.charges
    }

    // Whether no place is written.
    pub fn are_unwritten(&self) -> bool {
        [&self.table, &self.award, &self.charges]
            .iter()
            .all(|row| row.iter().all(|entry| *entry == 7))
    }
}
