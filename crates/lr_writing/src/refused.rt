// Why the part file wasn't written.
use lr_rules::CallKind;

/// Why the part file wasn't written.
#[derive(Clone, Copy)]
pub enum Refused {
    /// A call failed.
    Call(CallKind),
    /// The path was named.
    Taken,
}
