// A reading under way.
use crate::exposed::Exposed;
use crate::task::Task;
use lr_conf::Layer;
use lr_rules::Fault;
use std::alloc::Global;

/// What was read so far, and what is still to be read.
#[derive(Drop)]
pub struct Course {
    pub alloc: Global,
    pub layer: Layer,
    pub faults: Vec<Fault>,
    /// How many files may still be read, and how many bytes.
    pub files: u32,
    pub bytes: usize,
    /// The files of which it was told that others may write them.
    pub exposed: Exposed,
    /// The last is read next.
    pub todo: Vec<Task>,
}
