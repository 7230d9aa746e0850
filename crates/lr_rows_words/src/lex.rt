// Items and faults of configuration texts.
ghost use Rattle.std.specs.Prelude.{◌<◌, ◌^◌, length};

use crate::answers::Answer;
use crate::streamed::put_unlike;
use lr_lex::{Item, LexFault, LexKind, Lexer, Word};
use lr_rows_line::Trouble;
use lr_rows_read::Cursor;
use std::alloc::Global;

fn put_word(word: &Word, out: &mut Answer) {
    let text = word.text.as_str();
    let at = word.at;
    let len = word.len;
    out.put(format_args!(" [{text}]@{at}+{len}"));
}

fn put_flags(names: bool, brace: bool, stray: bool, out: &mut Answer) {
    out.put(if names { " names" } else { "" });
    out.put(if brace { " brace" } else { "" });
    out.put(if stray { " stray" } else { "" });
}

fn put_words(words: &[Word], out: &mut Answer) {
    for word in words {
        put_word(word, out);
    }
}

fn put_item(item: &Item, out: &mut Answer) {
    match item {
        Item::Line {
            words,
            names,
            brace,
            stray,
            line,
        } => {
            out.put(format_args!("{line} line"));
            put_words(words.as_slice(), out);
            put_flags(*names, *brace, *stray, out);
        }
        Item::Close { line } => out.put(format_args!("{line} close")),
        Item::Script {
            word,
            text,
            brace,
            stray,
            line,
        } => {
            let text = text.as_str();
            out.put(format_args!("{line} script"));
            put_word(word, out);
            put_flags(false, *brace, *stray, out);
            out.put(format_args!(" <{text}>"));
        }
    }
    out.put(";");
}

fn put_fault(fault: LexFault, out: &mut Answer) {
    let LexFault { line, kind } = fault;
    let kind = match kind {
        LexKind::LineTooLong => "LineTooLong",
        LexKind::NotUtf8 => "NotUtf8",
        LexKind::OpenQuote => "OpenQuote",
        LexKind::NoEndscript => "NoEndscript",
        LexKind::Memory => "Memory",
    };
    out.put(format_args!("{line} {kind};"));
}

/// Puts what came; whether something did.
pub fn put_told(told: Result<Option<Item>, LexFault>, out: &mut Answer) -> bool {
    match told {
        Ok(Some(item)) => {
            put_item(&item, out);
            drop(item);
        }
        Ok(None) => return false,
        Err(fault) => put_fault(fault, out),
    }
    true
}

// What comes up to the end, 64 items and faults at most. The end stays the end.
fn put_whole(alloc: Global, text: &[u8], out: &mut Answer)
    requires { length text.now < 2 ^ 32 }
{
    let mut lexer = Lexer::new(alloc, text);
    for _ in 0..64 {
        if !put_told(lexer.next(), out) {
            if put_told(lexer.next(), out) {
                out.put("went on");
            }
            return;
        }
    }
    out.put("and more");
}

/// `lex TEXT`: the items and faults of the text, each followed by a semicolon; and what it tells in pieces of 1, 7 and
/// 65,536 bytes, where that is something else.
pub fn lex(cursor: &mut Cursor, out: &mut Answer) -> Result<(), Trouble> {
    let text = cursor.word()?;
    if text.len() > 16_777_216 {
        return Err(Trouble::Odd("a text is too long"));
    }
    let mut whole = Answer::new(cursor.alloc);
    put_whole(cursor.alloc, text, &mut whole);
    out.put(whole.text());
    if !whole.is_whole() {
        out.starve();
    }
    put_unlike(cursor.alloc, text, 1, &whole, out);
    put_unlike(cursor.alloc, text, 7, &whole, out);
    put_unlike(cursor.alloc, text, 65_536, &whole, out);
    Ok(())
}
