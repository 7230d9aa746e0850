// A stream.
use crate::held::Held;

/// Reads the items of a text that comes in pieces, one after another. Bytes that were read are let go.
#[derive(Drop)]
pub struct Stream {
    pub held: Held,
    pub closed: bool,
}
