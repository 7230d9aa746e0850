// What comes before each call, and what the call leaves.
ghost use Rattle.std.specs.Prelude.{◌≡◌, ◌≢◌, ◌<◌, ◌++◌, ◌+◌, [], true, false, take, drop, length, slice_index_or, OnErr, OnOk};
ghost use Rattle.std.specs.Prelude.{IfOk, IsOk};
ghost use Rattle.lr_host.specs.declared.entry.Entry.{Entry};
ghost use Rattle.lr_host.specs.World.{world, past, names};
ghost use Rattle.lr_host.specs.Fits.{Fits};
ghost use Rattle.lr_disk.specs.State.{with_entry};
ghost use Rattle.lr_host.specs.Told.{CanCall};
ghost use Rattle.lr_memhost.specs.Acts.{how_of, ActsCame, ActComes, IsMaking, LeftNew};
ghost use Rattle.lr_memhost.specs.declared.act.Act.{Act};

use crate::act::{Act, Failing, How};
use lr_disk::Disk;
use lr_host::Entry;
use lr_rules::{Memory, Path};

// How the call with this number is to fail.
pub fn listed(failing: &[Failing], number: u64) -> Option<How>
    ensures { result ≡ how_of failing.now number }
{
    for f in failing {
        if f.at == number {
            return Some(f.how);
        }
    }
    None
}

// Lets the acts come that are due before this call. Where one finds no memory, it and those behind it stay.
pub fn take_acts(disk: &mut Disk, acts: &mut Vec<Act>, number: u64) -> Result<(), Memory>
    ensures ok { OnOk result (ActsCame number false (past disk.old) acts.old.items (past disk.new) acts.new.items) }
    ensures err { OnErr result (ActsCame number true (past disk.old) acts.old.items (past disk.new) acts.new.items) }
    ensures waits { OnErr result (acts.new.items ≢ []) }
{
    let mut at = 0;
    while at < acts.len() {
        if acts[at].before > number {
            at += 1;
        } else {
            take_act(disk, acts, at)?;
        }
    }
    Ok(())
}

// Lets the act at this place come; where it finds no memory, it stays.
fn take_act(disk: &mut Disk, acts: &mut Vec<Act>, at: usize) -> Result<(), Memory>
    requires { at < length acts.old.items }
    ensures ok { OnOk result (acts.new.items ≡ take at acts.old.items ++ drop (at + 1) acts.old.items) }
    ensures came { OnOk result ((a : Act) → a ≡ slice_index_or acts.old.items at a → ActComes a (past disk.old) (past disk.new)) }
    ensures err { OnErr result ((acts.new.items ≡ acts.old.items) × (disk.new ≡ disk.old)) }
{
    let Act { before, what } = acts.remove(at);
    if !disk.is_due(&what) {
        return Ok(());
    }
    match disk.enter(what) {
        Ok(()) => Ok(()),
        Err(what) => {
            acts.insert(at, Act { before, what }).unwrap();
            Err(Memory)
        }
    }
}

// Leaves the entry of a call, where there was memory for it; else all is as it was.
pub fn leave(disk: &mut Disk, entry: Result<Entry, Memory>) -> Result<(), Memory>
    requires { IfOk entry (λ e. Fits (world (past disk.old)) e) }
    ensures made { OnOk result (IsOk entry) }
    ensures ok { OnOk result ((e : Entry) → IfOk entry (λ x. x ≡ e) → disk.new ≡ with_entry disk.old e) }
    ensures err { OnErr result (disk.new ≡ disk.old) }
{
    match disk.enter(entry?) {
        Ok(()) => Ok(()),
        Err(_) => Err(Memory),
    }
}

// Leaves the entry of a call that makes something new of the path; false, and nothing is left, where the path is named.
pub fn leave_new(disk: &mut Disk, path: &Path, entry: Result<Entry, Memory>) -> Result<bool, Memory>
    requires { IfOk entry (λ e. IsMaking path.now e × CanCall (names (world (past disk.old))) e) }
    ensures ok { (e : Entry) → IfOk entry (λ x. x ≡ e) → IfOk result (λ made. LeftNew path.now made e disk.old disk.new) }
    ensures err { OnErr result (disk.new ≡ disk.old) }
{
    if disk.is_named(path) {
        return Ok(false);
    }
    leave(disk, entry)?;
    Ok(true)
}
