// The machine stops.
use lr_memhost::{CutFault, MemHost};
use lr_rows_line::Trouble;

/// Cuts the machine so that of the pending name changes those at these places stay, the oldest of which has place 0, and
/// each listed file (identity, length in bytes) is cut to its length; false where it can't stop so.
pub fn cut_keeping(
    host: &mut MemHost,
    kept: &[usize],
    lengths: &[(u64, u64)],
) -> Result<bool, Trouble> {
    match host.cut(kept, lengths) {
        Ok(()) => Ok(true),
        Err(CutFault::NotAllowed) => Ok(false),
        Err(CutFault::Memory) => Err(Trouble::Memory),
    }
}
