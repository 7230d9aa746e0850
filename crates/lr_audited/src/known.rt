// The lines that the looks give, by their paths.
use crate::line::Line;
use indexmap::IndexMap;

// The place of each line, by the bytes of its path.
#[derive(Drop)]
pub struct Known {
    pub places: IndexMap<Vec<u8>, usize>,
    pub lines: Vec<Line>,
}
