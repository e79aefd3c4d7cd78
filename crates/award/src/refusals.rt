// Why a sale is not decided.
ghost use Rattle.std.specs.Prelude.{◌≡◌};
ghost use Rattle.award.specs.Deciding.{refusal_of};

use table::TableRefusal;

#[derive(Clone, Copy, PartialEq, Eq, Debug)]
pub enum AwardRefusal {
    // There are more than 48 farms.
    Farms,
    // The table is too short.
    Table,
    // The row for the award has not one place for each farm.
    Award,
    // The row for the charges has not one place for each farm.
    Charges,
}

// The worths without each farm are written into the row for the charges.
impl From<TableRefusal> for AwardRefusal {
    ghost from_gives = { λ e r. r ≡ refusal_of e };

    fn from(refusal: TableRefusal) -> AwardRefusal {
        match refusal {
            TableRefusal::Farms => AwardRefusal::Farms,
            TableRefusal::Table => AwardRefusal::Table,
            TableRefusal::Without => AwardRefusal::Charges,
        }
    }
}
