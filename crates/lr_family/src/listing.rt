// What stands in a directory, listed once for all families in it.
ghost use Rattle.std.specs.Prelude.{◌≡◌, [], true, false, IfOk, IfErr};
ghost use Rattle.lr_host.specs.declared.entry.Entry.TheVariants as entry;
ghost use Rattle.lr_host.specs.Told.{Left, Can, Onward, Rose};
ghost use Rattle.lr_rules.specs.Path.{parent_of};
ghost use Rattle.lr_host.specs.Listing.{NamesRise, HasListed};
ghost use Rattle.lr_host.specs.Looks.{Sees, is_dir};
ghost use Rattle.lr_family.specs.Directory.{ParentStopped, ListStopped};
ghost use Rattle.lr_family.specs.Listed.{ShowsListing, NotListed, IsExactlyNoDir, AreAtMost};
ghost use Rattle.lr_family.specs.Stands.{IsFailedStand};

use crate::directory::{DirStop, look_for_dir, parent_there};
use crate::stand::StandStop;
use lr_host::{Host, ListFault, list_rising};
use lr_rules::{CallKind, Listed, Path, Text};
use std::alloc::Global;

/// The names in a directory, as they were listed once. It serves each family whose members stand there
/// (`Family::stand_in`).
#[derive(Drop)]
pub struct Listing {
    dir: Path,
    // Whether the directory is there, and whether the one is in which it stands, or would stand.
    there: bool,
    parent: bool,
    // In order of bytes, so that the names that begin alike stand side by side.
    names: Listed<Text>,
    ghost rising: { NamesRise names },
}

// Lists the directory, which is there.
fn list_there<H: Host>(alloc: Global, host: &mut H, dir: Path) -> Result<Listing, StandStop>
    requires list { Can (H.told host.old) (entry.List dir []) }
    ensures told { IfOk result (λ l. Left (HasListed dir l.names) (H.told host.old) (H.told host.new)) }
    ensures there { IfOk result (λ l. (l.dir ≡ dir) × (l.there ≡ true) × (l.parent ≡ true)) }
    ensures stopped { IfErr result (λ stop. Left (ListStopped dir stop) (H.told host.old) (H.told host.new)) }
    ensures cause { IfErr result (λ stop. IsFailedStand stop → Rose (H.counts host.old).faults (H.counts host.new).faults) }
    ensures counts { Onward (H.counts host.old) (H.counts host.new) }
{
    match list_rising(alloc, host, &dir) {
        Ok(names) => Ok(Listing {
            dir,
            there: true,
            parent: true,
            names,
        }),
        Err(ListFault::Failed) => Err(StandStop::Call(CallKind::List, dir)),
        Err(ListFault::Memory) => Err(StandStop::Memory),
    }
}

// Looks at the parent of the directory, which isn't there.
fn list_none<H: Host>(alloc: Global, host: &mut H, dir: Path) -> Result<Listing, StandStop>
    ensures told { IfOk result (λ l. Left (Sees (parent_of dir) (λ seen. is_dir seen ≡ l.parent)) (H.told host.old)
        (H.told host.new)) }
    ensures missing { IfOk result (λ l. (l.dir ≡ dir) × (l.there ≡ false) × (l.names ≡ [])) }
    ensures stopped { IfErr result (λ stop. Left (ParentStopped dir stop) (H.told host.old) (H.told host.new)) }
    ensures cause { IfErr result (λ stop. IsFailedStand stop → Rose (H.counts host.old).faults (H.counts host.new).faults) }
    ensures counts { Onward (H.counts host.old) (H.counts host.new) }
{
    match parent_there(alloc, host, &dir) {
        Ok(parent) => Ok(Listing {
            dir,
            there: false,
            parent,
            names: Listed::new(alloc),
        }),
        Err(stop) => Err(stop),
    }
}

// Looks for the directory, and lists it where it is there.
fn listing_of<H: Host>(alloc: Global, host: &mut H, dir: &Path) -> Result<Listing, StandStop>
    ensures told { IfOk result (λ l. Left (ShowsListing dir.now l.there l.parent l.names) (H.told host.old) (H.told host.new)) }
    ensures stopped { IfErr result (λ stop. Left (NotListed dir.now stop) (H.told host.old) (H.told host.new)) }
    ensures dir { IfOk result (λ l. l.dir ≡ dir.now) }
    ensures cause { IfErr result (λ stop. IsFailedStand stop → Rose (H.counts host.old).faults (H.counts host.new).faults) }
    ensures counts { Onward (H.counts host.old) (H.counts host.new) }
{
    // Before the first look, so that a thing of another kind is told however short memory is then.
    let Ok(dir) = dir.copy(alloc) else {
        return Err(StandStop::Memory);
    };
    match look_for_dir(host, &dir) {
        Ok(true) => list_there(alloc, host, dir),
        Ok(false) => list_none(alloc, host, dir),
        Err(DirStop::Call) => Err(StandStop::Call(CallKind::Look, dir)),
        Err(DirStop::NotDir) => Err(StandStop::NotFile(dir)),
    }
}

impl Listing {
    /// Looks for the directory, and lists it where it is one; where nothing has its path, looks for its parent. It leaves
    /// at most three entries. `NotFile` comes exactly where something else than a directory has the path.
    pub fn take<H: Host>(alloc: Global, host: &mut H, dir: &Path) -> Result<Listing, StandStop>
        ensures told { IfOk result (λ l. Left (ShowsListing dir.now l.there l.parent l.names) (H.told host.old) (H.told host.new)) }
        ensures stopped { IfErr result (λ stop. Left (NotListed dir.now stop) (H.told host.old) (H.told host.new)) }
        ensures dir { IfOk result (λ l. l.dir ≡ dir.now) }
        ensures exactly { Left (IsExactlyNoDir dir.now result) (H.told host.old) (H.told host.new) }
        ensures few { Left (AreAtMost 3) (H.told host.old) (H.told host.new) }
        ensures cause { IfErr result (λ stop. IsFailedStand stop → Rose (H.counts host.old).faults (H.counts host.new).faults) }
        ensures counts { Onward (H.counts host.old) (H.counts host.new) }
    {
        listing_of(alloc, host, dir)
    }

    /// The directory that was listed.
    pub fn dir(&self) -> &Path
        ensures { result.now ≡ self.now.dir }
    {
        &self.dir
    }

    /// Whether the directory is there.
    pub fn there(&self) -> bool
        ensures { result ≡ self.now.there }
    {
        self.there
    }

    /// Whether the directory is there in which it stands, or would stand.
    pub fn parent(&self) -> bool
        ensures { result ≡ self.now.parent }
    {
        self.parent
    }

    /// The names in the directory, in order of bytes; none where it isn't there.
    pub fn names(&self) -> &[Text]
        ensures names { result.now ≡ self.now.names }
        ensures rising { NamesRise result.now }
    {
        self.names.as_slice()
    }
}
