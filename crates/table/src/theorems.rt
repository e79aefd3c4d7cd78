// Theorems about the table.
ghost use Rattle.table.specs.Promises.{EntriesAreMost, EntriesAreAll};

// Each entry is reached by a choice of the farms from its row on, and no such choice is worth more.
#[tactic(auto, using(crate::proofs::TableRows::entries_are_most))]
pub fn entries_are_most_stands()
    ensures { EntriesAreMost }
{}

// There is a row for each farm and one for the reserve, with an entry for each bundle.
#[tactic(auto, using(crate::proofs::TableRows::entries_are_all))]
pub fn entries_are_all_stands()
    ensures { EntriesAreAll }
{}
