// What names of a log begin with.
use lr_rules::Listed;

/// What names of the log at a place begin with.
#[derive(Drop)]
pub struct Front {
    pub bytes: Listed<u8>,
    pub place: usize,
}
