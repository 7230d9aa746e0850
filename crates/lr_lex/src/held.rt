// What a stream holds.
use std::alloc::Global;

/// The bytes that were given and aren't taken yet.
#[derive(Drop)]
pub struct Held {
    pub alloc: Global,
    /// The whole lines of a script that has begun, if one has, and then a first part of a line.
    pub bytes: Vec<u8>,
    /// So many of these bytes are of the script.
    pub begun: usize,
    /// So many lines of it are whole.
    pub lines: u64,
    /// What stands behind, from the next place on.
    pub rest: Vec<u8>,
    pub from: usize,
    /// So many lines, and so many bytes, were taken before.
    pub down: u64,
    pub at: usize,
}
