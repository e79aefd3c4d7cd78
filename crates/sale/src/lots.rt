// A lot as a sale is opened with it: its units for sale, and the reserve of a unit in cents.
#[derive(Clone, Copy, Default)]
pub struct Lot {
    pub units: u8,
    pub reserve: u32,
}
