// The looks at what the words give.
ghost use Rattle.std.specs.Prelude.{◌≡◌, ◌≢◌, ◌-◌, ◌++◌, ◌∷◌, [], false, Ok, Err, map, length, OnOk, OnErr, IfOk};
ghost use Rattle.std.specs.List.{list_any};
ghost use Rattle.lr_host.specs.Told.{Left};
ghost use Rattle.lr_glob.specs.Sights.{is_long};
ghost use Rattle.lr_glob.specs.declared.found.GlobStop.TheVariants as stop;
ghost use Rattle.lr_looks.specs.Asked.{CanAsk, CanAskAll, AreTexts, word_of, rule_words, asked_by};
ghost use Rattle.lr_host.specs.Counted.{WentBy};
ghost use Rattle.lr_looks.specs.Found.{all_found_in, HasLogPath, HaveLogPaths};
ghost use Rattle.lr_looks.specs.Sights.{found_at, found_by, missing, glob_fault, sight_faults, AreFoundOf};
ghost use Rattle.lr_looks.specs.Sights.{LookedAtWords, LookedAtSomeWords};
ghost use Rattle.lr_looks.specs.Internal.{AddsFound};

use crate::found::Found;
use crate::naming::family_of;
use lr_glob::{Found as Match, GlobStop, expand};
use lr_host::Host;
use lr_rules::{Fault, Memory, Rule, Rules, Text};
use lr_words::is_wildcard;
use std::alloc::Global;

// A run finds so many logs at most.
const MOST_LOGS: usize = 16_384;

// ---- faults

// Adds the fault of a word that gives nothing, unless its rule lets its logs be missing.
fn add_missing(
    alloc: Global,
    faults: &mut Vec<Fault>,
    set: usize,
    rule: &Rule,
    word: &Text,
) -> Result<(), Memory>
    ensures { OnOk result (faults.new.items ≡ faults.old.items ++ missing (word_of set rule.now word.now)) }
{
    if !rule.missingok {
        faults.push(Fault::Missing(word.copy(alloc)?))?;
    }
    Ok(())
}

// Adds the fault of a word of which it isn't known what it gives, or too much.
fn add_stop(
    alloc: Global,
    faults: &mut Vec<Fault>,
    set: usize,
    rule: &Rule,
    word: &Text,
    why: GlobStop,
) -> Result<(), Memory>
    ensures faults { OnOk result (faults.new.items ≡ faults.old.items ++ glob_fault (word_of set rule.now word.now) why) }
    ensures known { OnOk result (why ≢ stop.Memory) }
{
    match why {
        GlobStop::Call(kind, path) => {
            faults.push(Fault::Call(kind, path))?;
            Ok(())
        }
        GlobStop::LongName => {
            faults.push(Fault::LongName(word.copy(alloc)?))?;
            Ok(())
        }
        GlobStop::TooMany => {
            faults.push(Fault::TooMany(word.copy(alloc)?))?;
            Ok(())
        }
        GlobStop::Memory => Err(Memory),
    }
}

// ---- logs

// Adds a log that the word gives.
fn add_log(
    alloc: Global,
    found: &mut Vec<Found>,
    set: usize,
    rule: &Rule,
    word: &Text,
    at: Match,
) -> Result<(), Memory>
    requires rule { CanAsk rule.now }
    requires short { is_long at ≡ false }
    ensures found { OnOk result (all_found_in found.new.items ≡ all_found_in found.old.items
        ++ found_at (word_of set rule.now word.now) at ∷ []) }
    ensures path { OnOk result (HasLogPath (found_at (word_of set rule.now word.now) at)) }
{
    let Match { path, seen } = at;
    let family = family_of(alloc, path, rule)?;
    found.push(Found {
        set,
        family,
        seen,
        wild: is_wildcard(word.bytes()),
        ignore_duplicates: rule.ignore_duplicates,
    })?;
    Ok(())
}

// Adds the logs that the word gives.
fn add_logs(
    alloc: Global,
    found: &mut Vec<Found>,
    set: usize,
    rule: &Rule,
    word: &Text,
    matches: Vec<Match>,
) -> Result<(), Memory>
    requires rule { CanAsk rule.now }
    requires short { list_any is_long matches.items ≡ false }
    ensures found { OnOk result (all_found_in found.new.items ≡ all_found_in found.old.items
        ++ map (found_at (word_of set rule.now word.now)) matches.items) }
    ensures paths { OnOk result (HaveLogPaths (all_found_in found.old.items) → HaveLogPaths (all_found_in found.new.items)) }
{
    for at in matches {
        add_log(alloc, found, set, rule, word, at)?;
    }
    Ok(())
}

// Adds the logs that the word gives, or the fault of a word that gives nothing.
fn add_matches(
    alloc: Global,
    found: &mut Vec<Found>,
    faults: &mut Vec<Fault>,
    set: usize,
    rule: &Rule,
    word: &Text,
    matches: Vec<Match>,
) -> Result<(), Memory>
    requires rule { CanAsk rule.now }
    requires short { list_any is_long matches.items ≡ false }
    ensures faults { OnOk result (faults.new.items ≡ faults.old.items
        ++ sight_faults (word_of set rule.now word.now) (Ok matches.items)) }
    ensures found { OnOk result (all_found_in found.new.items ≡ all_found_in found.old.items
        ++ found_by (word_of set rule.now word.now) (Ok matches.items)) }
    ensures paths { OnOk result (HaveLogPaths (all_found_in found.old.items) → HaveLogPaths (all_found_in found.new.items)) }
{
    if matches.is_empty() {
        return add_missing(alloc, faults, set, rule, word);
    }
    add_logs(alloc, found, set, rule, word, matches)
}

// ---- words

// So many more logs may be found behind these.
fn room_behind(found: &[Found]) -> usize
    ensures { result ≡ 16_384 - length found.now }
{
    MOST_LOGS.saturating_sub(found.len())
}

// Looks at what a word gives: adds its logs to those that were found, or its fault.
fn look_at_word<H: Host>(
    alloc: Global,
    host: &mut H,
    set: usize,
    rule: &Rule,
    word: &Text,
    found: &mut Vec<Found>,
    faults: &mut Vec<Fault>,
) -> Result<(), Memory>
    requires { CanAsk rule.now }
    ensures told { OnOk result (Left (LookedAtWords (word_of set rule.now word.now ∷ []) faults.old.items faults.new.items
        (all_found_in found.old.items) (all_found_in found.new.items)) (H.told host.old) (H.told host.new)) }
    ensures some { OnErr result (Left (LookedAtSomeWords (length (all_found_in found.old.items)) (word_of set rule.now word.now ∷
        [])) (H.told host.old) (H.told host.new)) }
    ensures found { OnOk result (AddsFound (word_of set rule.now word.now ∷ []) (all_found_in found.old.items)
        (all_found_in found.new.items)) }
    ensures paths { OnOk result (HaveLogPaths (all_found_in found.old.items) → HaveLogPaths (all_found_in found.new.items)) }
    ensures text { OnOk result (AreTexts (word_of set rule.now word.now ∷ [])) }
    ensures went { WentBy result faults.old.items faults.new.items (H.counts host.old) (H.counts host.new) }
{
    let _text = word.bytes();
    let room = room_behind(found.as_slice());
    match expand(alloc, host, word, room) {
        Ok(matches) => add_matches(alloc, found, faults, set, rule, word, matches),
        Err(why) => add_stop(alloc, faults, set, rule, word, why),
    }
}

// Looks at what the words of a rule give, in order.
fn look_at_rule<H: Host>(
    alloc: Global,
    host: &mut H,
    set: usize,
    rule: &Rule,
    found: &mut Vec<Found>,
    faults: &mut Vec<Fault>,
) -> Result<(), Memory>
    requires { CanAsk rule.now }
    ensures told { OnOk result (Left (LookedAtWords (rule_words set rule.now) faults.old.items faults.new.items
        (all_found_in found.old.items) (all_found_in found.new.items)) (H.told host.old) (H.told host.new)) }
    ensures some { OnErr result (Left (LookedAtSomeWords (length (all_found_in found.old.items)) (rule_words set rule.now))
        (H.told host.old) (H.told host.new)) }
    ensures found { OnOk result (AddsFound (rule_words set rule.now) (all_found_in found.old.items)
        (all_found_in found.new.items)) }
    ensures paths { OnOk result (HaveLogPaths (all_found_in found.old.items) → HaveLogPaths (all_found_in found.new.items)) }
    ensures texts { OnOk result (AreTexts (rule_words set rule.now)) }
    ensures went { WentBy result faults.old.items faults.new.items (H.counts host.old) (H.counts host.new) }
{
    for word in rule.words.as_slice() {
        look_at_word(alloc, host, set, rule, word, found, faults)?;
    }
    Ok(())
}

/// Looks at what the words of the rules give, in order of rules and words, without following links at the paths
/// themselves: of a literal word what stands at its one path, of any kind; of a wildcard the regular files that it
/// matches, in order of bytes. The faults of the others are added: `Missing`, `LongName` and `TooMany` with the word,
/// `Call` with the path. A run finds 16,384 logs at most.
pub fn look_at_words<H: Host>(
    alloc: Global,
    host: &mut H,
    rules: &Rules,
    faults: &mut Vec<Fault>,
) -> Result<Vec<Found>, Memory>
    requires { CanAskAll rules.now.sets }
    ensures told { IfOk result (λ found. Left (LookedAtWords (asked_by rules.now.sets) faults.old.items faults.new.items []
        (all_found_in found.items)) (H.told host.old) (H.told host.new)) }
    ensures some { OnErr result (Left (LookedAtSomeWords 0 (asked_by rules.now.sets)) (H.told host.old) (H.told host.new)) }
    ensures found { IfOk result (λ found. AreFoundOf (asked_by rules.now.sets) (all_found_in found.items)) }
    ensures paths { IfOk result (λ found. HaveLogPaths (all_found_in found.items)) }
    ensures texts { OnOk result (AreTexts (asked_by rules.now.sets)) }
    ensures went { WentBy result faults.old.items faults.new.items (H.counts host.old) (H.counts host.new) }
{
    let mut found = Vec::new(alloc);
    let sets = rules.sets.as_slice();
    for set in 0..sets.len() {
        look_at_rule(alloc, host, set, &sets[set], &mut found, faults)?;
    }
    Ok(found)
}
