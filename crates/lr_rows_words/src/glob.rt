// Patterns and taboo lists. A list is the first one, or what that becomes by words: `tabooext` or `taboopat`, `adds` or
// `sets`, and the items.
use crate::answers::{Answer, is_second, text, texts, yes};
use lr_match::{Taboo, matches};
use lr_rows_line::Trouble;
use lr_rows_read::Cursor;
use lr_rules::Text;

fn put_texts(texts: &[Text], out: &mut Answer) {
    for text in texts {
        let text = text.as_str();
        out.put(format_args!(" {text}"));
    }
}

fn changed_by(cursor: &mut Cursor) -> Result<Taboo, Trouble> {
    let patterns = is_second(cursor, b"tabooext", b"taboopat")?;
    let adding = is_second(cursor, b"sets", b"adds")?;
    let items = texts(cursor)?;
    let first = Taboo::first(cursor.alloc)?;
    let changed = first.changed(cursor.alloc, &items, patterns, adding);
    drop(first);
    Ok(changed?)
}

fn list(cursor: &mut Cursor) -> Result<Taboo, Trouble> {
    if cursor.is_done() {
        Ok(Taboo::first(cursor.alloc)?)
    } else {
        changed_by(cursor)
    }
}

/// `matches PATTERN NAME`: whether the pattern matches the name.
pub fn is_match(cursor: &mut Cursor, out: &mut Answer) -> Result<(), Trouble> {
    let pattern = text(cursor)?;
    let name = text(cursor)?;
    out.put(yes(matches(pattern.as_str(), name.as_str())));
    Ok(())
}

/// `bars NAME [CHANGE]`: whether the list bars the name.
pub fn bars(cursor: &mut Cursor, out: &mut Answer) -> Result<(), Trouble> {
    let name = text(cursor)?;
    let list = list(cursor)?;
    out.put(yes(list.bars(name.as_str())));
    drop(list);
    Ok(())
}

/// `changed [CHANGE]`: the extensions and the patterns of the list.
pub fn changed(cursor: &mut Cursor, out: &mut Answer) -> Result<(), Trouble> {
    let list = list(cursor)?;
    put_texts(list.extensions.as_slice(), out);
    out.put(" and");
    put_texts(list.patterns.as_slice(), out);
    drop(list);
    Ok(())
}
