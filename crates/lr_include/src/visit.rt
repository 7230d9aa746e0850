// One visit of a path.
ghost use Rattle.std.specs.Prelude.{◌≡◌, ◌<◌, ◌+◌, ◌^◌, [], Some, IfOk, OnErr};
ghost use Rattle.lr_host.specs.declared.entry.Entry.TheVariants as entry;
ghost use Rattle.lr_host.specs.Told.{Left, Are, Can, Onward, Rose};
ghost use Rattle.lr_include.specs.Visits.{ShowsNames, ShowsBytes, ShowsDir, ShowsFile, ShowsVisit, IsRead, RoomIsLeft, HasFailed};
ghost use Rattle.lr_include.specs.Visits.{PartText, PartFile, PartVisit};

use crate::file_taking::Taking;
use crate::look::{Sight, look_at};
use crate::part::{TextEnd, read_pieces};
use lr_host::{Host, ListFault, list_rising};
use lr_lex::{Item, LexFault};
use lr_rules::{Listed, Memory, Path, Text};
use std::alloc::Global;

/// What a visit of a path gave.
#[derive(Drop)]
pub enum Visit {
    /// The look failed.
    Unseen,
    /// Nothing is there, or neither a file nor a directory.
    Nothing,
    /// A regular file, which isn't read.
    File,
    /// A regular file that others than root and the one that runs the program may write. It is never read.
    Exposed,
    /// A directory, which isn't listed.
    Dir,
    /// A directory, and its listing failed.
    Unlisted,
    /// A directory with these names, in order of bytes.
    Holds(Listed<Text>),
    /// A file: the items and faults of its lines that its bytes told, how many bytes were read, and how their reading ended.
    Reads(Listed<Result<Item, LexFault>>, usize, TextEnd),
}

// Lists the directory.
fn names_of<H: Host>(alloc: Global, host: &mut H, dir: &Path) -> Result<Visit, Memory>
    requires list { Can (H.told host.old) (entry.List dir.now []) }
    ensures told { IfOk result (λ v. Left (ShowsNames dir.now v) (H.told host.old) (H.told host.new)) }
    ensures lacking { OnErr result (Left (Are []) (H.told host.old) (H.told host.new)) }
    ensures names { IfOk result (λ v. IsRead v → ⊥) }
    ensures cause { IfOk result (λ v. HasFailed v → Rose (H.counts host.old).faults (H.counts host.new).faults) }
    ensures counts { Onward (H.counts host.old) (H.counts host.new) }
{
    match list_rising(alloc, host, dir) {
        Ok(names) => Ok(Visit::Holds(names)),
        Err(ListFault::Failed) => Ok(Visit::Unlisted),
        Err(ListFault::Memory) => Err(Memory),
    }
}

// Lists the directory, or doesn't.
fn in_dir<H: Host>(alloc: Global, host: &mut H, dir: &Path, lists: bool) -> Result<Visit, Memory>
    requires list { Can (H.told host.old) (entry.List dir.now []) }
    ensures told { IfOk result (λ v. Left (ShowsDir dir.now lists v) (H.told host.old) (H.told host.new)) }
    ensures lacking { OnErr result (Left (Are []) (H.told host.old) (H.told host.new)) }
    ensures names { IfOk result (λ v. IsRead v → ⊥) }
    ensures cause { IfOk result (λ v. HasFailed v → Rose (H.counts host.old).faults (H.counts host.new).faults) }
    ensures counts { Onward (H.counts host.old) (H.counts host.new) }
{
    if lists {
        names_of(alloc, host, dir)
    } else {
        Ok(Visit::Dir)
    }
}

// Reads the file.
fn bytes_of<H: Host>(alloc: Global, host: &mut H, file: &Path, room: usize) -> Result<Visit, Memory>
    requires file { Can (H.told host.old) (entry.Reads file.now 0 []) }
    requires room { room + 1 < 2 ^ 32 }
    ensures told { IfOk result (λ v. Left (ShowsBytes file.now room v) (H.told host.old) (H.told host.new)) }
    ensures lacking { OnErr result (Left (PartText file.now room) (H.told host.old) (H.told host.new)) }
    ensures cause { IfOk result (λ v. HasFailed v → Rose (H.counts host.old).faults (H.counts host.new).faults) }
    ensures counts { Onward (H.counts host.old) (H.counts host.new) }
{
    let mut taking = Taking::new(alloc);
    let Ok(mut buffer) = vec![in alloc; 0u8; 65_536] else {
        return Err(Memory);
    };
    let how = read_pieces(host, file, &mut taking, &mut buffer, room)?;
    let Taking { told, size, .. } = taking;
    Ok(Visit::Reads(Listed::from_vec(told), size, how))
}

// Reads the file, or doesn't.
fn in_file<H: Host>(
    alloc: Global,
    host: &mut H,
    file: &Path,
    room: Option<usize>,
) -> Result<Visit, Memory>
    requires file { Can (H.told host.old) (entry.Reads file.now 0 []) }
    requires room { (n : _) → room ≡ Some n → n + 1 < 2 ^ 32 }
    ensures told { IfOk result (λ v. Left (ShowsFile file.now room v) (H.told host.old) (H.told host.new)) }
    ensures lacking { OnErr result (Left (PartFile file.now room) (H.told host.old) (H.told host.new)) }
    ensures read { IfOk result (λ v. IsRead v → RoomIsLeft room) }
    ensures cause { IfOk result (λ v. HasFailed v → Rose (H.counts host.old).faults (H.counts host.new).faults) }
    ensures counts { Onward (H.counts host.old) (H.counts host.new) }
{
    match room {
        Some(room) => bytes_of(alloc, host, file, room),
        None => Ok(Visit::File),
    }
}

/// What stands at the path: of a directory its names, where it is to be listed, and of a file its bytes, where there is
/// room for any. A file that others may write isn't read. Links are followed.
///
/// A call that fails is told in what the visit gave. Where it ends for want of memory, a first part of it was made.
pub fn visit_path<H: Host>(
    alloc: Global,
    host: &mut H,
    path: &Path,
    lists: bool,
    room: Option<usize>,
) -> Result<Visit, Memory>
    requires { (n : _) → room ≡ Some n → n + 1 < 2 ^ 32 }
    ensures told { IfOk result (λ v. Left (ShowsVisit path.now lists room v) (H.told host.old) (H.told host.new)) }
    ensures lacking { OnErr result (Left (PartVisit path.now room) (H.told host.old) (H.told host.new)) }
    ensures read { IfOk result (λ v. IsRead v → RoomIsLeft room) }
    ensures cause { IfOk result (λ v. HasFailed v → Rose (H.counts host.old).faults (H.counts host.new).faults) }
    ensures counts { Onward (H.counts host.old) (H.counts host.new) }
{
    match look_at(host, path) {
        Ok(Sight::File) => in_file(alloc, host, path, room),
        Ok(Sight::Exposed) => Ok(Visit::Exposed),
        Ok(Sight::Dir) => in_dir(alloc, host, path, lists),
        Ok(Sight::Nothing) => Ok(Visit::Nothing),
        Err(_) => Ok(Visit::Unseen),
    }
}
