// The theorem on what a farm has after a close.
// The search does not take the lemma (tried), so an answer names it.
ghost use Rattle.accounts.specs.Promises.{TrueMessageIsBest};

// Of two runs of messages that differ in the last taken one of a farm, the one with the true sheet leaves it no worse off.
pub fn true_message_is_best_stands()
    ensures { TrueMessageIsBest }
{}
