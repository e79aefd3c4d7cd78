// Why a table is not filled.
#[derive(Clone, Copy, PartialEq, Eq, Debug)]
pub enum TableRefusal {
    // There are more than 48 farms.
    Farms,
    // The table is too short.
    Table,
    // The row for the worths without each farm has not one place for each.
    Without,
}
