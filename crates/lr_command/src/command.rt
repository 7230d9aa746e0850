// The command line, as `clap` reads it.
ghost use Rattle.std.specs.Prelude.{◌≡◌, IfOk, false, codes};
ghost use Rattle.clap.specs.Words.{app_of, rule_of, with_rule};
ghost use Rattle.lr_command.specs.Command.{command, bare_command, counted_flag, valued, some_words};

use clap::{Arg, ArgAction, Command};
use std::alloc::{AllocError, Global};

// A flag, which may stand any number of times.
fn counted<'a>(alloc: Global, name: &'a str, letter: char) -> Arg<'a>
    ensures rule { rule_of result ≡ counted_flag name.entry.now letter }
    ensures own { result.global ≡ false }
{
    Arg::new(alloc, name)
        .short(letter)
        .long(name)
        .action(ArgAction::Count)
}

// An option with one value, at most once.
fn valued<'a>(alloc: Global, name: &'a str, letter: char) -> Arg<'a>
    ensures rule { rule_of result ≡ valued name.entry.now letter }
    ensures own { result.global ≡ false }
{
    Arg::new(alloc, name)
        .short(letter)
        .long(name)
        .action(ArgAction::Set)
}

// One or more words.
fn some_words<'a>(alloc: Global, name: &'a str) -> Arg<'a>
    ensures rule { rule_of result ≡ some_words name.entry.now }
    ensures own { result.global ≡ false }
{
    Arg::new(alloc, name)
        .num_args(1..)
        .action(ArgAction::Append)
        .required(true)
}

// A command whose words begin behind its name, without help.
fn bare<'a>(alloc: Global, name: &'a str) -> Command<'a>
    ensures { app_of result ≡ bare_command name.entry.now }
{
    Command::new(alloc, name)
        .no_binary_name(true)
        .disable_help_flag(true)
}

// Adds the three flags.
fn with_flags<'a>(alloc: Global, command: Command<'a>) -> Result<Command<'a>, AllocError>
    ensures { IfOk result (λ c. app_of c ≡ with_rule (with_rule (with_rule (app_of command.entry)
        (counted_flag (codes "debug") 100)) (counted_flag (codes "force") 102)) (counted_flag (codes "verbose") 118)) }
{
    command
        .arg(counted(alloc, "debug", 'd'))?
        .arg(counted(alloc, "force", 'f'))?
        .arg(counted(alloc, "verbose", 'v'))
}

/// The command line.
pub fn command<'a>(alloc: Global) -> Result<Command<'a>, AllocError>
    ensures { IfOk result (λ c. app_of c ≡ command) }
{
    with_flags(alloc, bare(alloc, "logrotate"))?
        .arg(valued(alloc, "state", 's'))?
        .arg(valued(alloc, "mail", 'm'))?
        .arg(some_words(alloc, "conf"))
}
