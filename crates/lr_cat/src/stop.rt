// Why a call wasn't carried through.
use lr_rules::Fault;

/// A fault ended it, another run has the lock, or there was no memory.
#[derive(Drop)]
pub enum CatStop {
    Fault(Fault),
    Held,
    Memory,
}
