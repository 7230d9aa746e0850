// The entries of calls and cuts, made of copies of what those are lent.
ghost use Rattle.std.specs.Prelude.{◌≡◌, IfOk};
ghost use Rattle.lr_host.specs.declared.entry.Entry.TheVariants as entry;

use lr_host::{Entry, Seen};
use lr_rules::{Listed, Memory, Path, Text, copy_texts};
use std::alloc::Global;

pub fn looks(alloc: Global, path: &Path, seen: Option<Seen>) -> Result<Entry, Memory>
    ensures { IfOk result (λ e. e ≡ entry.Look path.now seen) }
{
    Ok(Entry::Look {
        path: path.copy(alloc)?,
        seen,
    })
}

pub fn lists(alloc: Global, dir: &Path, names: &[Text]) -> Result<Entry, Memory>
    ensures { IfOk result (λ e. e ≡ entry.List dir.now names.now) }
{
    Ok(Entry::List {
        dir: dir.copy(alloc)?,
        names: copy_texts(alloc, names)?,
    })
}

pub fn reads(alloc: Global, path: &Path, from: u64, bytes: &[u8]) -> Result<Entry, Memory>
    ensures { IfOk result (λ e. e ≡ entry.Reads path.now from bytes.now) }
{
    Ok(Entry::Reads {
        path: path.copy(alloc)?,
        from,
        bytes: Listed::from_vec(bytes.to_vec(alloc)?),
    })
}

// A copy of the lengths of a cut.
fn copy_lengths(alloc: Global, lengths: &[(u64, u64)]) -> Result<Listed<(u64, u64)>, Memory>
    ensures { IfOk result (λ copy. copy ≡ lengths.now) }
{
    let mut copy = Vec::new(alloc);
    for pair in lengths {
        copy.push(*pair)?;
    }
    Ok(Listed::from_vec(copy))
}

pub fn cuts(alloc: Global, kept: &[usize], lengths: &[(u64, u64)]) -> Result<Entry, Memory>
    ensures { IfOk result (λ e. e ≡ entry.Cut kept.now lengths.now) }
{
    Ok(Entry::Cut {
        kept: Listed::from_vec(kept.to_vec(alloc)?),
        lengths: copy_lengths(alloc, lengths)?,
    })
}
