// Which definition gives a log.
ghost use Rattle.std.specs.Prelude.{◌≡◌, ◌↔◌, ◌≤◌, ◌&&◌, not, true, false, Any, IfOk, length};
ghost use Rattle.std.specs.List.{list_all};
ghost use Rattle.lr_rules.specs.Limits.{meets_limits};
ghost use Rattle.lr_rules.specs.Match.{WordGives, is_wildcard, part_end};
ghost use Rattle.lr_rules.specs.Names.{ends_with, naming_of};
ghost use Rattle.lr_rules.specs.Path.{is_absolute, last_of};
ghost use Rattle.lr_glob.specs.Parts.{parts_in};
ghost use Rattle.lr_laws_family.specs.Members.{IsFamily};
ghost use Rattle.lr_cat.specs.First.{AreMatched, IsFound};

use lr_family::Family;
use lr_glob::parts_of;
use lr_match::matches;
use lr_rules::{Memory, Path, Rule, Rules, Text, is_absolute, naming_of};
use lr_words::{has_part_end, is_wildcard, literal};
use std::alloc::Global;

// Whether there are as many names as parts, and each part matches the name at its place.
fn parts_match(parts: &[Text], names: &[Text]) -> bool
    ensures { (result ≡ true) ↔ AreMatched parts.now names.now }
{
    match parts {
        [] => names.is_empty(),
        [part, parts @ ..] => match names {
            [] => false,
            [name, names @ ..] => {
                matches(part.as_str(), name.as_str()) && parts_match(parts, names)
            }
        },
    }
}

// Whether a wildcard may match the path at all: both are absolute, and the path isn't that of a copy that isn't whole.
fn may_match(pattern: &[u8], path: &[u8]) -> bool
    ensures { result ≡ (is_absolute pattern.now && (is_absolute path.now && not (ends_with part_end path.now))) }
{
    is_absolute(pattern) && (is_absolute(path) && !has_part_end(path))
}

// What stands behind the slashes of an absolute word, or of a path.
fn parts_behind(alloc: Global, word: &[u8]) -> Result<Vec<Text>, Memory>
    requires { is_absolute word.now ≡ true }
    ensures { IfOk result (λ parts. parts.items ≡ parts_in word.now) }
{
    parts_of(alloc, &word[1..])
}

// Whether the wildcard gives the path.
fn wildcard_gives(alloc: Global, word: &Text, path: &Path) -> Result<bool, Memory>
    requires { is_wildcard word.now ≡ true }
    ensures { IfOk result (λ gives. (gives ≡ true) ↔ WordGives word.now path.now) }
{
    let pattern = word.bytes();
    let bytes = path.bytes();
    if !may_match(pattern, bytes) {
        return Ok(false);
    }
    let parts = parts_behind(alloc, pattern)?;
    let names = parts_behind(alloc, bytes)?;
    Ok(parts_match(parts.as_slice(), names.as_slice()))
}

// Whether the word, which is no wildcard, gives the path.
fn literal_gives(alloc: Global, word: &Text, path: &Path) -> Result<bool, Memory>
    requires { is_wildcard word.now ≡ false }
    ensures { IfOk result (λ gives. (gives ≡ true) ↔ WordGives word.now path.now) }
{
    let bytes = literal(alloc, word.bytes())?;
    Ok(path.has_bytes(&bytes))
}

fn word_gives(alloc: Global, word: &Text, path: &Path) -> Result<bool, Memory>
    ensures { IfOk result (λ gives. (gives ≡ true) ↔ WordGives word.now path.now) }
{
    if is_wildcard(word.bytes()) {
        wildcard_gives(alloc, word, path)
    } else {
        literal_gives(alloc, word, path)
    }
}

// Whether one of the words gives the path.
fn one_gives(alloc: Global, words: &[Text], path: &Path) -> Result<bool, Memory>
    ensures { IfOk result (λ gives. (gives ≡ true) ↔ Any (λ word. WordGives word path.now) words.now) }
{
    for word in words {
        if word_gives(alloc, word, path)? {
            return Ok(true);
        }
    }
    Ok(false)
}

// The family of the log, as the definition names its members.
fn family_of(alloc: Global, rule: &Rule, log: &Path) -> Result<Family, Memory>
    requires rule { meets_limits rule.now ≡ true }
    requires size { length log.now ≤ 2048 }
    requires last { length (last_of log.now) ≤ 255 }
    ensures log { IfOk result (λ family. family.log ≡ log.now) }
    ensures naming { IfOk result (λ family. family.naming ≡ naming_of rule.now log.now) }
    ensures is_family { IfOk result (λ family. IsFamily log.now (naming_of rule.now log.now)) }
{
    let _bytes = log.bytes();
    let naming = naming_of(alloc, rule, log)?;
    let log = log.copy(alloc)?;
    Ok(Family::of(log, naming))
}

// The family of the log by the first of these definitions that gives it.
fn family_by(alloc: Global, rules: &[Rule], log: &Path) -> Result<Option<Family>, Memory>
    requires limits { list_all meets_limits rules.now ≡ true }
    requires size { length log.now ≤ 2048 }
    requires last { length (last_of log.now) ≤ 255 }
    ensures { IfOk result (λ found. IsFound rules.now log.now found) }
{
    for rule in rules {
        if one_gives(alloc, rule.words.as_slice(), log)? {
            let family = family_of(alloc, rule, log)?;
            return Ok(Some(family));
        }
    }
    Ok(None)
}

/// The family of the log by the first definition that gives it; None where none does.
pub fn family_in(alloc: Global, rules: &Rules, log: &Path) -> Result<Option<Family>, Memory>
    requires size { length log.now ≤ 2048 }
    requires last { length (last_of log.now) ≤ 255 }
    ensures { IfOk result (λ found. IsFound rules.now.sets log.now found) }
{
    family_by(alloc, rules.sets.as_slice(), log)
}
