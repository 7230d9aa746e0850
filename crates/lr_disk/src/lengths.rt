// The lengths that a cut gives files: pairs of an identity and a length in bytes.
ghost use Rattle.std.specs.Prelude.{◌≡◌, ◌↔◌, IsTrue, length};
ghost use Rattle.lr_host.specs.Lists.{AreDistinct};
ghost use Rattle.lr_host.specs.World.{length_of, is_file};
ghost use Rattle.lr_host.specs.Below.{NamesBelow};
ghost use Rattle.lr_host.specs.Fits.{LengthsDiffer};
ghost use Rattle.lr_disk.specs.Pairs.{keys};
ghost use Rattle.lr_disk.specs.Names.{named_in};
ghost use Rattle.lr_disk.specs.Lengths.{has_file, IsLength, AreWithin};

use crate::file::MemFile;
use lr_host::Thing;
use lr_rules::Path;

/// The length that a file is given, by the first pair that has it.
pub fn length_for(lengths: &[(u64, u64)], identity: u64) -> Option<u64>
    ensures { result ≡ length_of lengths.now identity }
{
    for pair in lengths {
        if pair.0 == identity {
            return Some(pair.1);
        }
    }
    None
}

/// Whether no identity is listed twice.
pub fn are_apart(lengths: &[(u64, u64)]) -> bool
    ensures { IsTrue result ↔ LengthsDiffer lengths.now }
{
    for i in 0..lengths.len() {
        if length_for(&lengths[i + 1..], lengths[i].0).is_some() {
            return false;
        }
    }
    true
}

// Whether it is the file.
fn is_of(thing: Thing, identity: u64) -> bool
    ensures { result ≡ is_file thing identity }
{
    match thing {
        Thing::File(file) => file == identity,
        _ => false,
    }
}

// Whether some path names the file.
fn is_named(names: &[(Path, Thing)], identity: u64) -> bool
    ensures { result ≡ has_file names.now identity }
{
    for name in names {
        if is_of(name.1, identity) {
            return true;
        }
    }
    false
}

// Whether the pair is a length that a cut may give.
fn is_length(files: &[MemFile], names: &[(Path, Thing)], pair: (u64, u64)) -> bool
    requires once { AreDistinct (keys names.now) }
    requires below { NamesBelow (length files.now) (named_in names.now) }
    ensures { IsTrue result ↔ IsLength files.now (named_in names.now) pair }
{
    if !is_named(names, pair.0) {
        return false;
    }
    let place = pair.0 as usize;
    if place >= files.len() {
        return false;
    }
    let file = &files[place];
    file.synced <= pair.1 && pair.1 <= file.bytes.len() as u64
}

/// Whether a cut may give the files of these names these lengths.
pub fn are_within(files: &[MemFile], names: &[(Path, Thing)], lengths: &[(u64, u64)]) -> bool
    requires once { AreDistinct (keys names.now) }
    requires below { NamesBelow (length files.now) (named_in names.now) }
    ensures { IsTrue result ↔ AreWithin files.now (named_in names.now) lengths.now }
{
    for pair in lengths {
        if !is_length(files, names, *pair) {
            return false;
        }
    }
    true
}
