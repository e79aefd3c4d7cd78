// What a message is made of.
ghost use Rattle.std.specs.Prelude.{◌≡◌, ◌^◌, ◌<◌, ◌≤◌, length};

use bundle::Bundle;

// A line of a sheet: the units that a farm wants, and what it states that they are worth together.
// Shown by a view, as a message is: its fields are public, and a model would hide them.
#[derive(Clone, Copy)]
pub struct Line {
    pub worth: u32,
    pub units: Bundle,
    ghost small: { worth < 2 ^ 32 },
}

// A sheet: 0 to 32 lines, alternatives of which at most one is awarded; the first `count` of the array are its lines.
// An array with a count, since a sheet is copied, and no `ArrayVec` is `Copy`.
// Shown by a view, as a book is: a model of what is copied has to give its fields back, and the lines past the count are nobody's.
#[derive(Clone, Copy)]
pub struct Sheet {
    pub(crate) lines: [Line; 32],
    pub(crate) count: usize,
    ghost long: { length lines ≡ 32 },
    ghost few: { count ≤ 32 },
}

// A farm's message: its sheet, under a number that rises from message to message.
#[derive(Clone, Copy)]
pub struct Message {
    pub farm: u8,
    pub number: u32,
    pub sheet: Sheet,
}
