// The values of a stamp's fields.
/// The values of a stamp's fields: a year from 0 to 9999, the others as a date and a clock write them.
#[derive(Clone, Copy)]
pub struct StampParts {
    pub year: u64,
    pub month: u64,
    pub day: u64,
    pub hour: u64,
    pub minute: u64,
    pub second: u64,
    /// The seconds since 1970.
    pub epoch: u64,
}
