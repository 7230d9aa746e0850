// The names in a directory.
ghost use Rattle.std.specs.Prelude.{◌≡◌, [], IfOk, IfErr, Err};
ghost use Rattle.std.specs.Ordering.{nat_cmp};
ghost use Rattle.std.specs.Cmp.Lexicographic.{slice_cmp};
ghost use Rattle.std.specs.List.Sorted.{IsPermutation};
ghost use Rattle.lr_host.specs.declared.entry.Entry.TheVariants as entry;
ghost use Rattle.lr_host.specs.Listing.{NamesRise, HasListed};
ghost use Rattle.lr_host.specs.Told.{Left, Are, Can, Onward, Rose};

use crate::{Host, ListFault};
use lr_rules::{Listed, Path, Text};
use std::alloc::Global;
use std::cmp::Ordering;

fn by_bytes(a: &Text, b: &Text) -> Ordering
    ensures { result ≡ slice_cmp nat_cmp a.now b.now }
{
    a.bytes().cmp(b.bytes())
}

fn sort_rising(names: &mut Vec<Text>)
    ensures same { IsPermutation names.old.items names.new.items }
    ensures rising { NamesRise names.new.items }
{
    names.sort_unstable_by(|a, b| by_bytes(a, b));
}

/// The names in the directory, in order of bytes.
pub fn list_rising<H: Host>(
    alloc: Global,
    host: &mut H,
    dir: &Path,
) -> Result<Listed<Text>, ListFault>
    requires list { Can (H.told host.old) (entry.List dir.now []) }
    ensures told { IfOk result (λ names. Left (HasListed dir.now names) (H.told host.old) (H.told host.new)) }
    ensures rising { IfOk result NamesRise }
    ensures stopped { IfErr result (λ fault. Left (Are []) (H.told host.old) (H.told host.new)) }
    ensures cause { result ≡ Err ListFault.Failed → Rose (H.counts host.old).faults (H.counts host.new).faults }
    ensures counts { Onward (H.counts host.old) (H.counts host.new) }
{
    let mut names = Vec::new(alloc);
    match host.list(alloc, dir, &mut names) {
        Ok(()) => {
            sort_rising(&mut names);
            Ok(Listed::from_vec(names))
        }
        Err(fault) => Err(fault),
    }
}
