// What `clap` finds in the words.
ghost use Rattle.std.specs.Prelude.{◌≡◌, ◌≢◌, IfOk, map, option_map, true, false};
ghost use Rattle.clap.specs.Words.{found_of, rows_of};
ghost use Rattle.lr_command.specs.Command.{are_taken, found_in, has_flag, option_value};

use crate::command::command;
use crate::request::WordsFault;
use clap::ArgMatches;
use clap::error::ErrorKind;
use lr_rules::Text;
use std::alloc::Global;

/// The words, as `clap` takes them.
pub fn texts_of<'a>(alloc: Global, words: &'a [Text]) -> Result<Vec<&'a str>, WordsFault>
    ensures texts { IfOk result (λ texts. map (λ s. s.now) texts.items ≡ words.entry.now) }
    ensures memory { result ≢ Err WordsFault.Refused }
{
    let mut texts = Vec::new(alloc);
    for word in words {
        match texts.push(word.as_str()) {
            Ok(()) => {}
            Err(_) => return Err(WordsFault::Memory),
        }
    }
    Ok(texts)
}

/// What `clap` finds in the words, where it takes them.
pub fn find<'a>(alloc: Global, words: &'a [&'a str]) -> Result<ArgMatches<'a>, WordsFault>
    ensures taken { IfOk result (λ found. are_taken (map (λ s. s.now) words.entry.now) ≡ true) }
    ensures found { IfOk result (λ found. rows_of (found_of found) ≡ found_in (map (λ s. s.now) words.entry.now)) }
    ensures refused { result ≡ Err WordsFault.Refused → are_taken (map (λ s. s.now) words.entry.now) ≡ false }
{
    let command = match command(alloc) {
        Ok(command) => command,
        Err(_) => return Err(WordsFault::Memory),
    };
    match command.try_get_matches_from(words) {
        Ok(found) => Ok(found),
        Err(e) if e.kind() == ErrorKind::OutOfMemory => Err(WordsFault::Memory),
        Err(_) => Err(WordsFault::Refused),
    }
}

/// Whether the flag was found.
pub fn has_flag(found: &ArgMatches<'_>, name: &str) -> bool
    ensures { result ≡ has_flag name.now (rows_of (found_of found.now)) }
{
    found.get_count(name) > 0
}

/// The value of the option, where it was found.
pub fn value_of<'a>(found: &ArgMatches<'a>, name: &str) -> Option<&'a str>
    ensures { option_map (λ s. s.now) result ≡ option_value name.now (rows_of (found_of found.now)) }
{
    found.get_str(name)
}
