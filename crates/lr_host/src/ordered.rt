// Paths in order of bytes.
ghost use Rattle.std.specs.Prelude.{◌≡◌};
ghost use Rattle.std.specs.Str.{bytes_eq};
ghost use Rattle.std.specs.Ordering.{nat_cmp};
ghost use Rattle.std.specs.Cmp.Lexicographic.{slice_cmp};
ghost use Rattle.std.specs.List.{dedup};
ghost use Rattle.std.specs.List.Sorted.{IsPermutation, IsSortedByKey};

use lr_rules::Path;
use std::cmp::Ordering;

fn by_bytes(a: &Path, b: &Path) -> Ordering
    ensures { result ≡ slice_cmp nat_cmp a.now b.now }
{
    a.bytes().cmp(b.bytes())
}

/// Puts the paths in order of bytes.
pub fn put_in_order(paths: &mut Vec<Path>)
    ensures same { IsPermutation paths.old.items paths.new.items }
    ensures rising { IsSortedByKey (λ path. path) (slice_cmp nat_cmp) paths.new.items }
{
    paths.sort_unstable_by(|a, b| by_bytes(a, b));
}

fn are_same(a: &Path, b: &Path) -> bool
    ensures { result ≡ bytes_eq a.now b.now }
{
    a.bytes() == b.bytes()
}

/// Leaves each path once, where equal ones stand side by side.
pub fn leave_once(paths: &mut Vec<Path>)
    ensures { paths.new.items ≡ dedup bytes_eq paths.old.items }
{
    paths.dedup_by(|a, b| are_same(a, b));
}
