// What a word gives on the disk.
ghost use Rattle.std.specs.Prelude.{◌≡◌, ◌≢◌, [], ◌∷◌, true, false, IfOk, IfErr, Ok, Err, None, filter, MatchOption};
ghost use Rattle.std.specs.List.{list_any};
ghost use Rattle.lr_host.specs.Looks.{Sees};
ghost use Rattle.lr_host.specs.Told.{Left, Onward, Rose};
ghost use Rattle.lr_rules.specs.Path.{is_absolute, path_fault, root};
ghost use Rattle.lr_rules.specs.Match.{is_wildcard, literal_path};
ghost use Rattle.lr_glob.specs.Rounds.{Led};
ghost use Rattle.lr_glob.specs.Parts.{parts_in};
ghost use Rattle.lr_glob.specs.Sights.{InOrder, is_whole, is_long, judged, seen_at};
ghost use Rattle.lr_glob.specs.Stops.{IsFailedGlob};
ghost use Rattle.lr_glob.specs.Words.{WordGave, Halted, Comes, Stopped, NotSought, LiteralBroken};

use crate::found::{Found, GlobStop};
use crate::lead::{lead, parts_of};
use crate::sights::{look_at_each, whole_ones};
use lr_host::{Host, Seen, put_in_order};
use lr_rules::{CallKind, Memory, Path, PathFault, Text, is_absolute};
use lr_words::{is_wildcard, literal};
use std::alloc::Global;

// ---- limits

fn is_long(found: &Found) -> bool
    ensures { result ≡ is_long found.now }
{
    !(found.path.bytes().len() <= 2048 && found.path.last().len() <= 255)
}

fn any_long(found: &[Found]) -> bool
    ensures { result ≡ list_any is_long found.now }
{
    found.iter().any(|f| is_long(f))
}

// What is found, where no path of it is too long and there is room for so many.
fn judge(room: usize, found: Vec<Found>) -> Result<Vec<Found>, GlobStop>
    ensures ok { IfOk result (λ all. judged room found.items ≡ Ok all.items) }
    ensures short { IfOk result (λ all. list_any is_long all.items ≡ false) }
    ensures stopped { IfErr result (λ why. judged room found.items ≡ Err why) }
    ensures no_call { IfErr result (λ why. IsFailedGlob why → ⊥) }
{
    if any_long(found.as_slice()) {
        return Err(GlobStop::LongName);
    }
    if room < found.len() {
        return Err(GlobStop::TooMany);
    }
    Ok(found)
}

// ---- a wildcard

fn root(alloc: Global) -> Result<Vec<Path>, Memory>
    ensures { IfOk result (λ dirs. dirs.items ≡ root ∷ []) }
{
    match Path::new(alloc, b"/") {
        Ok(path) => one(alloc, path),
        // It is a path, so this is want of memory.
        Err(_) => Err(Memory),
    }
}

fn one(alloc: Global, path: Path) -> Result<Vec<Path>, Memory>
    ensures { IfOk result (λ paths. paths.items ≡ path ∷ []) }
{
    let mut paths = Vec::new(alloc);
    paths.push(path)?;
    Ok(paths)
}

// The parts of the word, and the root, from which they lead.
fn beginning(alloc: Global, word: &[u8]) -> Result<(Vec<Text>, Vec<Path>), Memory>
    requires { is_absolute word.now ≡ true }
    ensures { IfOk result (λ b. (b.0.items ≡ parts_in word.now) × (b.1.items ≡ root ∷ [])) }
{
    let start = root(alloc)?;
    let parts = parts_of(alloc, &word[1..])?;
    Ok((parts, start))
}

// The paths to which the parts of the word lead.
fn paths_of<H: Host>(alloc: Global, host: &mut H, word: &[u8]) -> Result<Vec<Path>, GlobStop>
    requires { is_absolute word.now ≡ true }
    ensures told { IfOk result (λ paths. Left (Led (parts_in word.now) (root ∷ []) paths.items) (H.told host.old)
        (H.told host.new)) }
    ensures stopped { IfErr result (λ why. Left (NotSought word.now why) (H.told host.old) (H.told host.new)) }
    ensures cause { IfErr result (λ why. IsFailedGlob why → Rose (H.counts host.old).faults (H.counts host.new).faults) }
    ensures counts { Onward (H.counts host.old) (H.counts host.new) }
{
    match beginning(alloc, word) {
        Ok((parts, start)) => lead(alloc, host, parts.as_slice(), start),
        Err(_) => Err(GlobStop::Memory),
    }
}

// The paths in order of bytes, but for copies that aren't whole yet.
fn ordered(alloc: Global, paths: Vec<Path>) -> Result<Vec<Path>, Memory>
    ensures { IfOk result (λ all. InOrder (filter is_whole paths.items) all.items) }
{
    let mut whole = whole_ones(alloc, paths)?;
    put_in_order(&mut whole);
    Ok(whole)
}

// What an absolute wildcard gives.
fn search<H: Host>(alloc: Global, host: &mut H, word: &[u8]) -> Result<Vec<Found>, GlobStop>
    requires wild { is_wildcard word.now ≡ true }
    requires absolute { is_absolute word.now ≡ true }
    ensures told { IfOk result (λ found. Left (WordGave word.now found.items) (H.told host.old) (H.told host.new)) }
    ensures stopped { IfErr result (λ why. Left (Halted word.now why) (H.told host.old) (H.told host.new)) }
    ensures cause { IfErr result (λ why. IsFailedGlob why → Rose (H.counts host.old).faults (H.counts host.new).faults) }
    ensures counts { Onward (H.counts host.old) (H.counts host.new) }
{
    let paths = match paths_of(alloc, host, word) {
        Ok(paths) => paths,
        Err(stop) => return Err(stop),
    };
    match ordered(alloc, paths) {
        Ok(all) => look_at_each(alloc, host, all),
        Err(_) => Err(GlobStop::Memory),
    }
}

// ---- a literal word

fn one_found(alloc: Global, path: Path, seen: Seen) -> Result<Vec<Found>, Memory>
    ensures { IfOk result (λ found. found.items ≡ record { path = path; seen = seen } ∷ []) }
{
    let mut found = Vec::new(alloc);
    found.push(Found { path, seen })?;
    Ok(found)
}

fn seen_there(alloc: Global, path: Path, look: Option<Seen>) -> Result<Vec<Found>, Memory>
    ensures { IfOk result (λ found. found.items ≡ seen_at path look) }
{
    match look {
        Some(seen) => one_found(alloc, path, seen),
        None => Ok(Vec::new(alloc)),
    }
}

// Looks at the path, without following a link: what stands there, of any kind.
fn look_at_literal<H: Host>(alloc: Global, host: &mut H, path: Path) -> Result<Vec<Found>, GlobStop>
    ensures told { IfOk result (λ found. Left (Sees path (λ seen. found.items ≡ seen_at path seen)) (H.told host.old)
        (H.told host.new)) }
    ensures stopped { IfErr result (λ why. Left (LiteralBroken path why) (H.told host.old) (H.told host.new)) }
    ensures cause { IfErr result (λ why. IsFailedGlob why → Rose (H.counts host.old).faults (H.counts host.new).faults) }
    ensures counts { Onward (H.counts host.old) (H.counts host.new) }
{
    let Ok(look) = host.look(&path, false) else {
        return Err(GlobStop::Call(CallKind::Look, path));
    };
    match seen_there(alloc, path, look) {
        Ok(found) => Ok(found),
        Err(_) => Err(GlobStop::Memory),
    }
}

fn no_path(fault: PathFault) -> Result<Option<Path>, Memory>
    ensures { IfOk result (λ path. (path ≡ None) × (fault ≢ PathFault.Memory)) }
{
    fault.passed_over()?;
    Ok(None)
}

// The path of a literal word; None where it names no path.
fn literal_of(alloc: Global, word: &[u8]) -> Result<Option<Path>, Memory>
    ensures { IfOk result (λ path. MatchOption path (path_fault (literal_path word.now) ≡ None → ⊥)
        (λ p. p ≡ literal_path word.now)) }
{
    let bytes = literal(alloc, word)?;
    match Path::new(alloc, bytes.as_slice()) {
        Ok(path) => Ok(Some(path)),
        Err(fault) => no_path(fault),
    }
}

// What a literal word gives.
fn literal_found<H: Host>(alloc: Global, host: &mut H, word: &[u8]) -> Result<Vec<Found>, GlobStop>
    requires plain { is_wildcard word.now ≡ false }
    ensures told { IfOk result (λ found. Left (WordGave word.now found.items) (H.told host.old) (H.told host.new)) }
    ensures stopped { IfErr result (λ why. Left (Halted word.now why) (H.told host.old) (H.told host.new)) }
    ensures cause { IfErr result (λ why. IsFailedGlob why → Rose (H.counts host.old).faults (H.counts host.new).faults) }
    ensures counts { Onward (H.counts host.old) (H.counts host.new) }
{
    match literal_of(alloc, word) {
        Ok(Some(path)) => look_at_literal(alloc, host, path),
        Ok(None) => Ok(Vec::new(alloc)),
        Err(_) => Err(GlobStop::Memory),
    }
}

// ---- a word

// All that a word gives.
fn all_found<H: Host>(alloc: Global, host: &mut H, word: &[u8]) -> Result<Vec<Found>, GlobStop>
    ensures told { IfOk result (λ found. Left (WordGave word.now found.items) (H.told host.old) (H.told host.new)) }
    ensures stopped { IfErr result (λ why. Left (Halted word.now why) (H.told host.old) (H.told host.new)) }
    ensures cause { IfErr result (λ why. IsFailedGlob why → Rose (H.counts host.old).faults (H.counts host.new).faults) }
    ensures counts { Onward (H.counts host.old) (H.counts host.new) }
{
    if !is_wildcard(word) {
        return literal_found(alloc, host, word);
    }
    if !is_absolute(word) {
        return Ok(Vec::new(alloc));
    }
    search(alloc, host, word)
}

/// The paths that a word gives, as logrotate(8) and glob(7) have it: of a literal word what stands at its one path, of any
/// kind, or nothing; of a wildcard the regular files that it matches part by part, in order of bytes, but for names that
/// end with `.logrotate-part`. Directories on the way are visited with their links followed; the paths themselves are
/// looked at without. LongName comes exactly where a match has more than 2,048 bytes, or a last part of more than 255;
/// TooMany exactly where none has and there are more than `room`; Call where a call failed, with its path.
pub fn expand<H: Host>(
    alloc: Global,
    host: &mut H,
    word: &Text,
    room: usize,
) -> Result<Vec<Found>, GlobStop>
    ensures told { IfOk result (λ found. Left (Comes word.now room (Ok found.items)) (H.told host.old) (H.told host.new)) }
    ensures short { IfOk result (λ found. list_any is_long found.items ≡ false) }
    ensures stopped { IfErr result (λ why. Left (Stopped word.now room why) (H.told host.old) (H.told host.new)) }
    ensures cause { IfErr result (λ why. IsFailedGlob why → Rose (H.counts host.old).faults (H.counts host.new).faults) }
    ensures counts { Onward (H.counts host.old) (H.counts host.new) }
{
    match all_found(alloc, host, word.bytes()) {
        Ok(found) => judge(room, found),
        Err(stop) => Err(stop),
    }
}
