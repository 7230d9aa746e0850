// The changes of names that aren't durable.
ghost use Rattle.std.specs.Prelude.{◌≡◌, ◌++◌, ◌∷◌, [], bytes_eq, take, length};
ghost use Rattle.std.specs.List.{list_any};
ghost use Rattle.lr_host.specs.World.{in_list, paths_in, makes_above, is_inside, shares};
ghost use Rattle.lr_disk.specs.Pending.{as_change};

use lr_host::Thing;
use lr_rules::Path;

/// A change of names.
#[derive(Drop)]
pub enum Pending {
    /// The path names this.
    Puts(Path, Thing),
    /// The second path names what the first named, and the first nothing.
    Moves(Path, Path),
    /// The path names nothing.
    Drops(Path),
}

// Whether it is a path of the change.
fn has_path(change: &Pending, path: &Path) -> bool
    ensures { result ≡ in_list (paths_in (as_change change.now)) path.now }
{
    match change {
        Pending::Puts(x, _) => x.is(path),
        Pending::Moves(from, to) => from.is(path) || to.is(path),
        Pending::Drops(x) => x.is(path),
    }
}

// Whether a path of the first is one of the second.
fn meets(change: &Pending, other: &Pending) -> bool
    ensures { result ≡ list_any (in_list (paths_in (as_change other.now))) (paths_in (as_change change.now)) }
{
    match change {
        Pending::Puts(x, _) => has_path(other, x),
        Pending::Moves(from, to) => has_path(other, from) || has_path(other, to),
        Pending::Drops(x) => has_path(other, x),
    }
}

// Whether the path goes on behind these bytes with a slash.
fn is_behind(base: &[u8], path: &[u8]) -> bool
    ensures { result ≡ bytes_eq (take (length (base.now ++ 47 ∷ [])) path.now) (base.now ++ 47 ∷ []) }
{
    if path.len() <= base.len() {
        return false;
    }
    &path[..base.len()] == base && path[base.len()] == b'/'
}

// Whether a path stands inside the directory, at any depth.
fn is_within(dir: &Path, path: &Path) -> bool
    ensures { result ≡ is_inside dir.now path.now }
{
    let dir = dir.bytes();
    if dir.len() == 1 {
        is_behind(&dir[..0], path.bytes())
    } else {
        is_behind(dir, path.bytes())
    }
}

// Whether the first makes a directory that a path of the second stands inside.
fn makes_over(change: &Pending, other: &Pending) -> bool
    ensures { result ≡ makes_above (as_change change.now) (as_change other.now) }
{
    match change {
        Pending::Puts(dir, Thing::Directory) => match other {
            Pending::Puts(x, _) => is_within(dir, x),
            Pending::Moves(from, to) => is_within(dir, from) || is_within(dir, to),
            Pending::Drops(x) => is_within(dir, x),
        },
        _ => false,
    }
}

/// Whether the changes share a name: a path is one of both, or one makes a directory that a path of the other stands
/// inside.
pub fn share(change: &Pending, other: &Pending) -> bool
    ensures { result ≡ shares (as_change change.now) (as_change other.now) }
{
    meets(change, other) || makes_over(change, other) || makes_over(other, change)
}
