// The theorem on what is read.
// The search does not take the lemma (tried), so an answer names it.
ghost use Rattle.sheets.specs.Allowed.{ReadExactly};

// A message is read exactly if it is the writing of a submission whose farm exists, whose number is above the farm's last, and whose sheet is allowed.
pub fn read_exactly_stands()
    ensures { ReadExactly }
{}
