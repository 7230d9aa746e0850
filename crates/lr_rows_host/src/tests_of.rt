// What a call asks for, tested: trouble where it doesn't hold.
ghost use Rattle.std.specs.Prelude.{◌≢◌, OnOk};
ghost use Rattle.lr_rules.specs.Path.{parent_of};
ghost use Rattle.lr_host.specs.declared.thing.Thing.TheVariants as thing;
ghost use Rattle.lr_host.specs.World.{world, names};
ghost use Rattle.lr_host.specs.Told.{WhereTold};
ghost use Rattle.lr_host.specs.Fits.{IsFileAt, IsDirectoryAt};

use crate::telling::Telling;
use lr_host::Thing;
use lr_rows_line::Trouble;
use lr_rules::Path;
use std::alloc::Global;

/// Trouble unless a file has the path.
pub fn file_at<H: Telling>(host: &H, path: &Path) -> Result<(), Trouble>
    ensures { OnOk result (WhereTold (H.told host.now) (λ p. IsFileAt (names (world p)) path.now)) }
{
    match host.thing_at(path) {
        None => Ok(()),
        Some(Thing::File(_)) => Ok(()),
        Some(_) => Err(Trouble::Odd("no file has the path")),
    }
}

/// Trouble unless the path is a directory's.
pub fn dir_at<H: Telling>(host: &H, path: &Path) -> Result<(), Trouble>
    ensures { OnOk result (WhereTold (H.told host.now) (λ p. IsDirectoryAt (names (world p)) path.now)) }
{
    match host.thing_at(path) {
        None => Ok(()),
        Some(Thing::Directory) => Ok(()),
        Some(_) => Err(Trouble::Odd("no directory has the path")),
    }
}

/// Trouble unless the path is one in a directory.
pub fn place_at<H: Telling>(alloc: Global, host: &H, path: &Path) -> Result<(), Trouble>
    ensures { OnOk result (WhereTold (H.told host.now) (λ p. IsDirectoryAt (names (world p)) (parent_of path.now))) }
{
    dir_at(host, &path.parent(alloc)?)
}

/// Trouble unless a rename can give a file the path.
pub fn is_free<H: Telling>(host: &H, path: &Path) -> Result<(), Trouble>
    ensures directory { OnOk result (WhereTold (H.told host.now) (λ p. names (world p) path.now ≢ thing.Directory)) }
    ensures other { OnOk result (WhereTold (H.told host.now) (λ p. names (world p) path.now ≢ thing.Other)) }
{
    match host.thing_at(path) {
        None => Ok(()),
        Some(Thing::Nothing) => Ok(()),
        Some(Thing::File(_)) => Ok(()),
        Some(_) => Err(Trouble::Odd("no file can get the path")),
    }
}

/// Trouble where a rename would give a file the path that it has.
pub fn are_apart<H: Telling>(host: &H, from: &Path, to: &Path) -> Result<(), Trouble>
    ensures { OnOk result (WhereTold (H.told host.now) (λ _. from.now ≢ to.now)) }
{
    match host.thing_at(from) {
        None => Ok(()),
        Some(_) if from.is(to) => Err(Trouble::Odd("the file has the path")),
        Some(_) => Ok(()),
    }
}
