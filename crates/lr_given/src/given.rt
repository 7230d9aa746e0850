// The words, the directory and the time of a call.
ghost use Rattle.std.specs.Prelude.{◌≡◌, ◌↔◌, [], ◌∷◌, true, IfOk};

use crate::stop::{GivenStop, stop_of};
use lr_rules::{Path, PathFault, Text, TextFault};
use std::alloc::Global;
use std::env;
use std::time::{SystemTime, UNIX_EPOCH};

/// The text of these bytes.
pub fn given_text(alloc: Global, bytes: &[u8]) -> Result<Text, GivenStop>
    ensures { IfOk result (λ text. text ≡ bytes.now) }
{
    match Text::new(alloc, bytes) {
        Ok(text) => Ok(text),
        Err(TextFault::Memory) => Err(GivenStop::Memory),
        Err(_) => Err(GivenStop::BadWords),
    }
}

/// The path of these bytes.
pub fn path_of(alloc: Global, bytes: &[u8]) -> Result<Path, GivenStop>
    ensures { IfOk result (λ path. path ≡ bytes.now) }
{
    match Path::new(alloc, bytes) {
        Ok(path) => Ok(path),
        Err(PathFault::Memory) => Err(GivenStop::Memory),
        Err(_) => Err(GivenStop::BadWords),
    }
}

/// The words of the command line behind the program's name.
pub fn words_given(rt: &HostRuntime, alloc: Global) -> Result<Vec<Text>, GivenStop> {
    let mut args = match env::args(rt) {
        Ok(args) => args,
        Err(e) => return Err(stop_of(e.kind())),
    };
    let _name = args.next();
    let mut words = Vec::new(alloc);
    for arg in args {
        add_word(alloc, &mut words, arg.as_bytes())?;
    }
    Ok(words)
}

fn add_word(alloc: Global, words: &mut Vec<Text>, arg: &[u8]) -> Result<(), GivenStop> {
    let word = given_text(alloc, arg)?;
    match words.push(word) {
        Ok(()) => Ok(()),
        Err(_) => Err(GivenStop::Memory),
    }
}

/// Whether this is the one word.
pub fn is_alone(words: &[Text], wanted: &[u8]) -> bool
    ensures { result ≡ true ↔ words.now ≡ wanted.now ∷ [] }
{
    match words {
        [word] => word.bytes() == wanted,
        _ => false,
    }
}

/// The working directory.
pub fn here_given(rt: &HostRuntime, alloc: Global) -> Result<Path, GivenStop> {
    match env::current_dir(rt) {
        Ok(here) => path_of(alloc, here.as_str().as_bytes()),
        Err(e) => Err(stop_of(e.kind())),
    }
}

/// The clock's seconds since 1970; -1 where it can't be read or shows an earlier time.
pub fn seconds(rt: &HostRuntime) -> i64 {
    let Ok(now) = SystemTime::now(rt) else {
        return -1;
    };
    match now.duration_since(UNIX_EPOCH) {
        Ok(since) => i64::try_from(since.as_secs()).unwrap_or(-1),
        Err(_) => -1,
    }
}
