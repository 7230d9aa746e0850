// A journal, gone through entry by entry.
use lr_disk::Replay;

/// The disk behind the entries so far, and a mark for each file that is a generation so far.
#[derive(Drop)]
pub struct Walk {
    pub replay: Replay,
    pub marks: Vec<bool>,
}
