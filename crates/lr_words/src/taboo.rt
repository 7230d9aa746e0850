// Lists of taboo extensions and patterns.
ghost use Rattle.std.specs.Prelude.{◌≡◌, ◌∷◌, ◌++◌, [], true, OnOk, IfOk, filter, flat_map};
ghost use Rattle.lr_words.specs.Lists.{is_item, items_in, begins_with_plus, without_first_byte, items_said, of_items, taboo_value};

use lr_rules::{ConfKind, Listed, Memory, Text, push_text, text_of};
use std::alloc::Global;

/// What a `tabooext` or a `taboopat` lists: one item at least, and whether the items are added to those before.
#[derive(Drop)]
pub struct TabooItems {
    pub items: Listed<Text>,
    pub adding: bool,
}

fn add_part(alloc: Global, into: &mut Vec<Text>, part: &[u8]) -> Result<(), Memory>
    ensures { OnOk result (into.new.items ≡ into.old.items ++ filter is_item (part.now ∷ [])) }
{
    match part {
        [] => Ok(()),
        [_, ..] => push_text(alloc, into, part),
    }
}

// Adds the items of a word.
fn add_items(alloc: Global, into: &mut Vec<Text>, word: &[u8]) -> Result<(), Memory>
    ensures { OnOk result (into.new.items ≡ into.old.items ++ items_in word.now) }
{
    for part in word.split(|b| *b == b',') {
        add_part(alloc, into, part)?;
    }
    Ok(())
}

fn all_items(alloc: Global, words: &[Text]) -> Result<Vec<Text>, Memory>
    ensures { IfOk result (λ items. items.items ≡ flat_map items_in words.now) }
{
    let mut items = Vec::new(alloc);
    for word in words {
        add_items(alloc, &mut items, word.bytes())?;
    }
    Ok(items)
}

fn begins_with_plus(items: &[Text]) -> bool
    ensures { result ≡ begins_with_plus items.now }
{
    match items {
        [] => false,
        [first, ..] => is_plus(first.bytes()),
    }
}

fn is_plus(item: &[u8]) -> bool
    ensures { result ≡ begins_with_plus (item.now ∷ []) }
{
    match item {
        [] => false,
        [first, ..] => *first == b'+',
    }
}

// Takes the first byte off the first item, which goes where it had no other.
fn drop_first_byte(alloc: Global, items: &mut Vec<Text>) -> Result<(), Memory>
    requires { begins_with_plus items.old.items ≡ true }
    ensures { OnOk result (items.new.items ≡ without_first_byte items.old.items) }
{
    let first = items.remove(0);
    match first.bytes() {
        [] | [_] => Ok(()),
        [_, left @ ..] => {
            let left = text_of(alloc, left)?;
            items.insert(0, left)?;
            Ok(())
        }
    }
}

fn items_said(alloc: Global, items: &mut Vec<Text>) -> Result<bool, Memory>
    ensures adding { IfOk result (λ adding. adding ≡ begins_with_plus items.old.items) }
    ensures items { OnOk result (items.new.items ≡ items_said items.old.items) }
{
    if !begins_with_plus(items) {
        return Ok(false);
    }
    drop_first_byte(alloc, items)?;
    Ok(true)
}

fn of_items(adding: bool, items: Vec<Text>) -> Result<TabooItems, ConfKind>
    ensures { result ≡ of_items adding items.items }
{
    if items.is_empty() {
        Err(ConfKind::MissingValue)
    } else {
        Ok(TabooItems {
            items: Listed::from_vec(items),
            adding,
        })
    }
}

/// The items of the words behind `tabooext` or `taboopat`, which stand between commas and blanks. By a `+` before the
/// first, or for itself, they are added; else they replace what stood before. MissingValue: there is none.
pub fn taboo_items(alloc: Global, words: &[Text]) -> Result<Result<TabooItems, ConfKind>, Memory>
    ensures { IfOk result (λ r. r ≡ taboo_value words.now) }
{
    let mut items = all_items(alloc, words)?;
    let adding = items_said(alloc, &mut items)?;
    Ok(of_items(adding, items))
}
