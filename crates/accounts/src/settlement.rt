// What a close comes to.
#[derive(Clone, Copy)]
pub struct Settlement {
    // What the award is worth.
    pub worth: u64,
    // What the farms pay together.
    pub income: u64,
}
