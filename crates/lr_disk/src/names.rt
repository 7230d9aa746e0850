// What each path names: pairs, of which the first with a path counts.
ghost use Rattle.std.specs.Prelude.{◌≡◌, ◌⊎◌, true, List, ℕ, IfOk, OnOk, bytes_eq};
ghost use Rattle.lr_host.specs.Lists.{AreDistinct};
ghost use Rattle.lr_disk.specs.Pairs.{keys, with_value};
ghost use Rattle.lr_disk.specs.Names.{named_in, has_path};

use lr_host::Thing;
use lr_rules::Path;
use std::alloc::{AllocError, Global};

pub fn thing_at(names: &[(Path, Thing)], path: &[u8]) -> Thing
    ensures { result ≡ named_in names.now path.now }
{
    for pair in names {
        if pair.0.bytes() == path {
            return pair.1;
        }
    }
    Thing::Nothing
}

/// Makes room for what the path names. Nothing changes.
pub fn make_name(
    alloc: Global,
    names: &mut Vec<(Path, Thing)>,
    path: &Path,
) -> Result<(), AllocError>
    ensures same { (x : List ℕ) → named_in names.new.items x ≡ named_in names.old.items x }
    ensures once { AreDistinct (keys names.old.items) → AreDistinct (keys names.new.items) }
    ensures here { OnOk result (has_path names.new.items path.now ≡ true) }
    ensures others { (x : List ℕ) → has_path names.old.items x ≡ true → has_path names.new.items x ≡ true }
    ensures only { (x : List ℕ) → has_path names.new.items x ≡ true → (has_path names.old.items x ≡ true) ⊎ (path.now ≡ x) }
{
    for pair in names.as_slice() {
        if pair.0.is(path) {
            return Ok(());
        }
    }
    names.push((path.copy(alloc)?, Thing::Nothing))?;
    Ok(())
}

/// Lets a path name something else.
pub fn set_name(names: &mut [(Path, Thing)], path: &Path, thing: Thing)
    requires { has_path names.old path.now ≡ true }
    ensures set { (x : List ℕ) → named_in names.new x ≡ with_value bytes_eq (named_in names.old) path.now thing x }
    ensures keys { keys names.new ≡ keys names.old }
{
    for i in 0..names.len() {
        let pair = &mut names[i];
        if pair.0.is(path) {
            pair.1 = thing;
            return;
        }
    }
}

/// Lets each path name what it names by the other table, which has no path that isn't here.
pub fn take_over(names: &mut [(Path, Thing)], other: &[(Path, Thing)])
    requires { (x : List ℕ) → has_path other.now x ≡ true → has_path names.old x ≡ true }
    ensures named { (x : List ℕ) → named_in names.new x ≡ named_in other.now x }
    ensures keys { keys names.new ≡ keys names.old }
{
    for i in 0..names.len() {
        let pair = &mut names[i];
        pair.1 = thing_at(other, pair.0.bytes());
    }
}

/// A copy of what the paths name.
pub fn copy_names(alloc: Global, names: &[(Path, Thing)]) -> Result<Vec<(Path, Thing)>, AllocError>
    ensures { IfOk result (λ copy. copy.items ≡ names.now) }
{
    let mut copy = Vec::new(alloc);
    for name in names {
        copy.push((name.0.copy(alloc)?, name.1))?;
    }
    Ok(copy)
}
