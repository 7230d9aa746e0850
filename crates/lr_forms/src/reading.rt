// Reading a line by itself.
ghost use Rattle.std.specs.Prelude.{◌≡◌, ◌∷◌, [], IfOk, MatchOption};
ghost use Rattle.lr_forms.specs.Says.{directive_of, means, by_directive, texts, words_say, nested, item_says};

use crate::faults::fault_of;
use crate::form::{Form, form_of};
use crate::make::make_says;
use crate::names::names_say;
use crate::row::directive_of;
use crate::said::LineSaid;
use crate::script::script_says;
use crate::taboo::{include_says, taboo_says};
use crate::value::{day_says, one_says};
use lr_lex::{Item, Word};
use lr_rules::{ConfKind, Listed, Memory, Text};
use std::alloc::Global;

fn means(alloc: Global, form: Form, word: Text, values: &[Word]) -> Result<LineSaid, Memory>
    ensures { IfOk result (λ s. s ≡ means form word (texts values.now)) }
{
    match form {
        Form::Passed => Ok(LineSaid::Passed(word)),
        Form::Plain(set) => Ok(LineSaid::Sets(set)),
        Form::One(value) => one_says(alloc, value, values),
        Form::Day => Ok(day_says(values)),
        Form::Make { olddir } => Ok(make_says(olddir, values)),
        Form::Include => include_says(alloc, values),
        Form::Taboo { patterns } => taboo_says(alloc, patterns, values),
        _ => Ok(LineSaid::Quiet),
    }
}

/// The first word and the others.
fn split_first(words: Vec<Word>) -> Option<(Word, Vec<Word>)>
    ensures { MatchOption result (words.items ≡ []) (λ p. words.items ≡ p.0 ∷ p.1.items) }
{
    let mut words = words;
    if words.is_empty() {
        None
    } else {
        let first = words.remove(0);
        Some((first, words))
    }
}

fn directive_says(
    alloc: Global,
    inside: bool,
    brace: bool,
    stray: bool,
    word: Text,
    values: &[Word],
) -> Result<LineSaid, Memory>
    ensures { IfOk result (λ s. s ≡ by_directive inside brace stray word (texts values.now) (directive_of word)) }
{
    let Some(directive) = directive_of(word.bytes()) else {
        return Ok(LineSaid::Unknown);
    };
    match fault_of(alloc, inside, brace, stray, directive, values)? {
        Some(kind) => Ok(LineSaid::Bad(kind)),
        None => means(alloc, form_of(directive), word, values),
    }
}

/// What a line says whose first sign begins no name.
fn words_say(
    alloc: Global,
    words: Listed<Word>,
    inside: bool,
    brace: bool,
    stray: bool,
) -> Result<LineSaid, Memory>
    ensures { IfOk result (λ s. s ≡ words_say inside brace stray words) }
{
    let Some((word, values)) = split_first(words.into_vec()) else {
        return Ok(if inside {
            LineSaid::Bad(ConfKind::NestedBrace)
        } else {
            LineSaid::Open
        });
    };
    if inside && brace {
        return Ok(LineSaid::Bad(ConfKind::NestedBrace));
    }
    directive_says(alloc, inside, brace, stray, word.text, values.as_slice())
}

/// The fault of a line that may stand in no definition, where it stands in one.
fn nested(brace: bool, kind: ConfKind) -> LineSaid
    ensures { result ≡ nested brace kind }
{
    LineSaid::Bad(if brace { ConfKind::NestedBrace } else { kind })
}

/// What a line says, inside a definition or outside. The first fault that applies is the line's.
pub fn say(alloc: Global, item: Item, inside: bool) -> Result<LineSaid, Memory>
    ensures { IfOk result (λ s. s ≡ item_says inside item) }
{
    match item {
        Item::Close { .. } => Ok(LineSaid::Close),
        Item::Script {
            word,
            text,
            brace,
            stray,
            ..
        } => Ok(script_says(inside, brace, stray, word.text.bytes(), text)),
        Item::Line {
            words,
            names,
            brace,
            stray,
            ..
        } => {
            if !names {
                words_say(alloc, words, inside, brace, stray)
            } else if inside {
                Ok(nested(brace, ConfKind::Stray))
            } else {
                names_say(alloc, words.as_slice(), stray)
            }
        }
    }
}
