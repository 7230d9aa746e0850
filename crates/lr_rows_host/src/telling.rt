// Hosts of which a call can be asked by words.
ghost use Rattle.std.specs.Prelude.{◌≡◌, None, MatchOption};
ghost use Rattle.lr_host.specs.World.{world, names};
ghost use Rattle.lr_host.specs.Told.{WhereTold};

use lr_adapt::RealHost;
use lr_host::{Host, Thing};
use lr_memhost::MemHost;
use lr_rules::Path;
use std::fs::File;
use std::process::Processes;
use std::rt::Files;
use std::time::Clock;

/// A host that says what stands, where it tells its journal: a call that asks for something of the disk is made only where that is
/// so.
pub trait Telling: Host {
    /// What has the path; None where the journal isn't told.
    fn thing_at(&self, path: &Path) -> Option<Thing>
        ensures { MatchOption result (Self.told self.now ≡ None)
            (λ thing. WhereTold (Self.told self.now) (λ p. names (world p) path.now ≡ thing)) };
}

impl Telling for MemHost {
    fn thing_at(&self, path: &Path) -> Option<Thing> {
        Some(self.thing(path))
    }
}

impl<R: Files<File = File> + Processes + AllocGlobal + Eprint + Clock + Drop> Telling
    for RealHost<R> {
    fn thing_at(&self, _path: &Path) -> Option<Thing> {
        None
    }
}
