// The call that the first word of a line names.
use crate::answers::Answer;
use crate::{clock, directive, due, glob, lex, member, mode, moment, path, state};
use lr_rows_line::Trouble;
use lr_rows_read::Cursor;

// Of moments and states.
fn put_moments(name: &str, cursor: &mut Cursor, out: &mut Answer) -> Result<(), Trouble> {
    match name {
        "seconds" => moment::seconds(cursor, out),
        "due" => due::is_due(cursor, out),
        "due-cases" => due::are_due(cursor, out),
        "clock" => clock::clock(cursor, out),
        "tz" => clock::tz(cursor, out),
        "state" => state::state(cursor, out),
        "pieces" => state::pieces(cursor, out),
        "moment" => state::moment_of(cursor, out),
        "set" => state::set(cursor, out),
        "purge" => state::purge(cursor, out),
        _ => Err(Trouble::Odd("no such call")),
    }
}

// Of words, patterns and names of members, else of moments.
fn put_words(name: &str, cursor: &mut Cursor, out: &mut Answer) -> Result<(), Trouble> {
    match name {
        "value" => mode::value(cursor, out),
        "row" => directive::row(cursor, out),
        "row-of" => directive::row_of(cursor, out),
        "lex" => lex::lex(cursor, out),
        "matches" => glob::is_match(cursor, out),
        "bars" => glob::bars(cursor, out),
        "changed" => glob::changed(cursor, out),
        "name" | "place" | "named-again" | "dated" | "apart" | "meets" => {
            member::asked(name, cursor, out)
        }
        _ => put_moments(name, cursor, out),
    }
}

// Of paths, else of words.
fn put_paths(name: &str, cursor: &mut Cursor, out: &mut Answer) -> Result<(), Trouble> {
    match name {
        "path" => path::path(cursor, out),
        "word" => path::word(cursor, out),
        "parent" => path::parent(cursor, out),
        "last" => path::last(cursor, out),
        "join" => path::join(cursor, out),
        "same" => path::same(cursor, out),
        "utf8" => path::utf8(cursor, out),
        "starved" => path::starved(out),
        _ => put_words(name, cursor, out),
    }
}

/// Puts what the call answers that the words name. It takes all of them.
pub fn answer(cursor: &mut Cursor, out: &mut Answer) -> Result<(), Trouble> {
    let name = str::from_utf8(cursor.word()?).unwrap_or("");
    put_paths(name, cursor, out)?;
    if cursor.is_done() {
        Ok(())
    } else {
        Err(Trouble::Odd("a word is too many"))
    }
}
