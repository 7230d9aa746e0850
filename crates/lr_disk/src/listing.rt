// The names that stand in a directory.
ghost use Rattle.std.specs.Prelude.{◌≡◌, ◌++◌, OnOk, None, take, length};
ghost use Rattle.lr_rules.specs.Path.{path_fault};
ghost use Rattle.lr_host.specs.Fits.{AreNamesIn};
ghost use Rattle.lr_host.specs.Lists.{AreDistinct};
ghost use Rattle.lr_disk.specs.Pairs.{keys};
ghost use Rattle.lr_disk.specs.Names.{named_in, stands_right_in, name_of, listed_in};

use lr_host::Thing;
use lr_rules::{Path, Text};
use std::alloc::{AllocError, Global};

fn stands_in(pair: &(Path, Thing), dir: &Path) -> bool
    ensures { result ≡ stands_right_in dir.now pair.now }
{
    if pair.1 == Thing::Nothing {
        return false;
    }
    if pair.0.parent_bytes() != dir.bytes() {
        return false;
    }
    !pair.0.last().is_empty()
}

// Adds the last part of a path that stands in the directory.
fn add_name(
    alloc: Global,
    into: &mut Vec<Text>,
    pair: &(Path, Thing),
    dir: &Path,
) -> Result<(), AllocError>
    ensures ok { OnOk result (into.new.items ≡ into.old.items ++ name_of dir.now pair.now) }
    ensures kept { take (length into.old.items) into.new.items ≡ into.old.items }
    ensures path { path_fault pair.now.0 ≡ None }
{
    let _ = pair.0.bytes();
    if stands_in(pair, dir) {
        into.push(pair.0.last_text(alloc)?)?;
    }
    Ok(())
}

/// Adds the names of what stands in the directory.
pub fn add_names(
    alloc: Global,
    into: &mut Vec<Text>,
    names: &[(Path, Thing)],
    dir: &Path,
) -> Result<(), AllocError>
    requires { AreDistinct (keys names.now) }
    ensures ok { OnOk result (into.new.items ≡ into.old.items ++ listed_in dir.now names.now) }
    ensures kept { take (length into.old.items) into.new.items ≡ into.old.items }
    ensures all { OnOk result (AreNamesIn (named_in names.now) dir.now (listed_in dir.now names.now)) }
{
    let _ = dir.bytes();
    for pair in names {
        add_name(alloc, into, pair, dir)?;
    }
    Ok(())
}
