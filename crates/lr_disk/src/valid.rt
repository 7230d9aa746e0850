// Whether an opening is a disk.
ghost use Rattle.std.specs.Prelude.{◌≡◌, ◌≢◌, ◌↔◌, ◌<◌, ◌≤◌, ◌==◌, ℕ, IsTrue, Contains, All, length, count_by};
ghost use Rattle.lr_rules.specs.Path.{parent_of};
ghost use Rattle.lr_host.specs.Lists.{AreDistinct};
ghost use Rattle.lr_host.specs.Opening.{IsValid};
ghost use Rattle.lr_disk.specs.Pairs.{keys};
ghost use Rattle.lr_disk.specs.Names.{opening_pairs};

use lr_host::{OpenFile, Opening, Thing};
use lr_rules::Path;

fn has(paths: &[Path], bytes: &[u8]) -> bool
    ensures { IsTrue result ↔ Contains paths.now bytes.now }
{
    paths.iter().any(|path| path.bytes() == bytes)
}

fn lacks(names: &[(Path, Thing)], path: &Path) -> bool
    ensures { IsTrue result ↔ All (λ n. path.now ≢ n.0) names.now }
{
    names.iter().all(|name| !path.is(&name.0))
}

fn are_once(names: &[(Path, Thing)]) -> bool
    ensures { IsTrue result ↔ AreDistinct (keys names.now) }
{
    for i in 0..names.len() {
        if !lacks(&names[i + 1..], &names[i].0) {
            return false;
        }
    }
    true
}

fn are_inside(names: &[(Path, Thing)], dirs: &[Path]) -> bool
    ensures { IsTrue result ↔ All (λ n. Contains dirs.now (parent_of n.0)) names.now }
{
    for name in names {
        if !has(dirs, name.0.parent_bytes()) {
            return false;
        }
    }
    true
}

fn names_of_file(names: &[(Path, u64)], identity: u64) -> usize
    ensures { result ≡ count_by (λ n. n.1 == identity) names.now }
{
    names.iter().filter(|name| name.1 == identity).count()
}

fn are_named(names: &[(Path, u64)], files: usize) -> bool
    ensures { IsTrue result ↔ ((g : ℕ) → g < files → count_by (λ n. n.1 == g) names.now ≡ 1) }
{
    for identity in 0..files {
        if names_of_file(names, identity as u64) != 1 {
            return false;
        }
    }
    true
}

fn are_known(names: &[(Path, u64)], files: usize) -> bool
    ensures { IsTrue result ↔ All (λ n. n.1 < files) names.now }
{
    names.iter().all(|name| name.1 < files as u64)
}

fn are_held(holds: &[(u32, u64)], files: usize) -> bool
    ensures { IsTrue result ↔ All (λ h. h.1 < files) holds.now }
{
    holds.iter().all(|hold| hold.1 < files as u64)
}

fn lacks_writer(holds: &[(u32, u64)], writer: u32) -> bool
    ensures { IsTrue result ↔ All (λ h. writer ≢ h.0) holds.now }
{
    holds.iter().all(|hold| hold.0 != writer)
}

fn hold_once(holds: &[(u32, u64)]) -> bool
    ensures { IsTrue result ↔ AreDistinct (keys holds.now) }
{
    for i in 0..holds.len() {
        if !lacks_writer(&holds[i + 1..], holds[i].0) {
            return false;
        }
    }
    true
}

fn are_synced(files: &[OpenFile]) -> bool
    ensures { IsTrue result ↔ All (λ f. f.synced ≤ length f.bytes) files.now }
{
    files
        .iter()
        .all(|file| file.synced <= file.bytes.len() as u64)
}

/// Whether the opening, which names these things, is a disk.
pub fn is_valid(opening: &Opening, names: &[(Path, Thing)]) -> bool
    requires { names.now ≡ opening_pairs opening.now }
    ensures { IsTrue result ↔ IsValid opening.now }
{
    let files = opening.files.len();
    let named = opening.names.as_slice();
    let dirs = opening.dirs.as_slice();
    let holds = opening.holds.as_slice();
    if !are_once(names) {
        return false;
    }
    if !has(dirs, b"/") {
        return false;
    }
    if !are_inside(names, dirs) {
        return false;
    }
    if !are_named(named, files) {
        return false;
    }
    if !are_known(named, files) {
        return false;
    }
    if !are_held(holds, files) {
        return false;
    }
    if !hold_once(holds) {
        return false;
    }
    are_synced(opening.files.as_slice())
}
