// Theorems on the life of a sale.
// Where no lemma is named here, the search does not take it (tried), and an answer names it.
ghost use Rattle.sale.specs.Opening.{OpensExactly};
ghost use Rattle.sale.specs.Promises.{OrderFree, ToldOwn, ClosedByRule, MoneyKept, NeverBelowZero, EachPays, ChargesAreFair};

// A sale is opened exactly if its lots can be sold, no reserve is above 1,000,000, there are 1 to 48 farms, and no account is above its limit.
#[tactic(auto, using(crate::proofs::Openings::opens_exactly))]
pub fn opens_exactly_stands()
    ensures { OpensExactly }
{}

// The order in which messages come does not matter, where no farm sends two under one number.
pub fn order_free_stands()
    ensures { OrderFree }
{}

// What a farm is told of its messages depends on the lots, how many farms there are, its own account and its own messages, and on nothing that others have or send.
pub fn told_own_stands()
    ensures { ToldOwn }
{}

// What a close leaves is the first of the best choices, and from each farm what the rest could have had without it less what the rest has.
#[tactic(auto, using(crate::proofs::Closes::closed_by_rule))]
pub fn closed_by_rule_stands()
    ensures { ClosedByRule }
{}

// The accounts of the farms and of the company hold the same sum before and after.
pub fn money_kept_stands()
    ensures { MoneyKept }
{}

// No account falls below zero.
pub fn never_below_zero_stands()
    ensures { NeverBelowZero }
{}

// Each account is the one before less its charge.
pub fn each_pays_stands()
    ensures { EachPays }
{}

// A charge is at most the stated worth of the line awarded and at least the reserve of its units; a farm that gets no line pays nothing.
pub fn charges_are_fair_stands()
    ensures { ChargesAreFair }
{}
