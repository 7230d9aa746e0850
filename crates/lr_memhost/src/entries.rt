// The entries of calls, made of copies of what the calls are lent.
ghost use Rattle.std.specs.Prelude.{◌≡◌, IfOk, option_copied};
ghost use Rattle.lr_host.specs.declared.entry.Entry.TheVariants as entry;

use lr_host::Entry;
use lr_rules::{Ended, Listed, Memory, Moment, Path, Rules, Text, copy_path, copy_texts};
use std::alloc::Global;

pub fn starts(alloc: Global, state: &Path, now: &Moment, rules: &Rules) -> Result<Entry, Memory>
    ensures { IfOk result (λ e. e ≡ entry.Starts state.now now.now rules.now) }
{
    Ok(Entry::Starts {
        state: state.copy(alloc)?,
        now: *now,
        rules: rules.copy(alloc)?,
    })
}

pub fn renames(alloc: Global, from: &Path, to: &Path) -> Result<Entry, Memory>
    ensures { IfOk result (λ e. e ≡ entry.Renames from.now to.now) }
{
    Ok(Entry::Renames {
        from: from.copy(alloc)?,
        to: to.copy(alloc)?,
    })
}

pub fn makes(alloc: Global, path: &Path, mode: Option<u32>) -> Result<Entry, Memory>
    ensures { IfOk result (λ e. e ≡ entry.Makes path.now mode) }
{
    Ok(Entry::Makes {
        path: path.copy(alloc)?,
        mode,
    })
}

pub fn appends(alloc: Global, path: &Path, bytes: &[u8]) -> Result<Entry, Memory>
    ensures { IfOk result (λ e. e ≡ entry.Appends path.now bytes.now) }
{
    Ok(Entry::Appends {
        path: path.copy(alloc)?,
        bytes: Listed::from_vec(bytes.to_vec(alloc)?),
    })
}

pub fn truncates(alloc: Global, path: &Path) -> Result<Entry, Memory>
    ensures { IfOk result (λ e. e ≡ entry.Truncates path.now) }
{
    Ok(Entry::Truncates {
        path: path.copy(alloc)?,
    })
}

pub fn unlinks(alloc: Global, path: &Path) -> Result<Entry, Memory>
    ensures { IfOk result (λ e. e ≡ entry.Unlinks path.now) }
{
    Ok(Entry::Unlinks {
        path: path.copy(alloc)?,
    })
}

pub fn syncs_file(alloc: Global, path: &Path) -> Result<Entry, Memory>
    ensures { IfOk result (λ e. e ≡ entry.SyncsFile path.now) }
{
    Ok(Entry::SyncsFile {
        path: path.copy(alloc)?,
    })
}

pub fn syncs_dir(alloc: Global, path: &Path) -> Result<Entry, Memory>
    ensures { IfOk result (λ e. e ≡ entry.SyncsDir path.now) }
{
    Ok(Entry::SyncsDir {
        path: path.copy(alloc)?,
    })
}

pub fn makes_dir(alloc: Global, path: &Path, mode: Option<u32>) -> Result<Entry, Memory>
    ensures { IfOk result (λ e. e ≡ entry.MakesDir path.now mode) }
{
    Ok(Entry::MakesDir {
        path: path.copy(alloc)?,
        mode,
    })
}

pub fn runs(
    alloc: Global,
    program: &Path,
    args: &[Text],
    input: Option<&Path>,
    ended: Ended,
) -> Result<Entry, Memory>
    ensures { IfOk result (λ e. e ≡ entry.Runs program.now args.now (option_copied input.entry) ended) }
{
    Ok(Entry::Runs {
        program: program.copy(alloc)?,
        args: copy_texts(alloc, args)?,
        input: copy_path(alloc, input)?,
        ended,
    })
}
