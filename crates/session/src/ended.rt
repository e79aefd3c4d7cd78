// What the run over a file to the close comes to.
// Shown by a view: its fields are public, and a model would hide them.
use sale::{ClosingRefusal, Life};

#[derive(Clone, Copy)]
pub struct Session {
    // The sale at the end.
    pub sale: Life,
    // What the award is worth, or why the sale is not closed.
    pub closing: Result<u64, ClosingRefusal>,
}
