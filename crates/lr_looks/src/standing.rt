// What stands of a log, beside the log itself.
use lr_family::Stand;
use lr_host::Seen;

/// What stands of the family of a log, and what stands where the log waits that is set aside.
#[derive(Drop)]
pub struct Standing {
    pub stand: Stand,
    /// None where nothing stands there, and of a log of another way.
    pub tmp: Option<Seen>,
}
