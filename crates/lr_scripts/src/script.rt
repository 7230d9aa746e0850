// Scripts with their arguments.
ghost use Rattle.std.specs.Prelude.{◌≡◌, ◌∷◌, [], None, Some, codes, IfOk};
ghost use Rattle.lr_scripts.specs.Commands.{script_command, where_so};

use crate::command::Command;
use lr_rules::{Listed, Memory, Path, Text, push_text, text_of};
use std::alloc::Global;

// The words of the shell before the script's arguments.
fn shell_words(alloc: Global, text: &Text) -> Result<Vec<Text>, Memory>
    ensures { IfOk result (λ words. words.items ≡ codes "-c" ∷ text.now ∷ codes "logrotate_script" ∷ []) }
{
    let option = text_of(alloc, b"-c")?;
    let text = text.copy(alloc)?;
    let name = text_of(alloc, b"logrotate_script")?;
    Ok(Vec::from_array(alloc, [option, text, name])?)
}

// A shell with these words.
fn shell(alloc: Global, words: Vec<Text>) -> Result<Command, Memory>
    ensures { IfOk result (λ command. command ≡ record { program = codes "/bin/sh"; args = words.items; input = None }) }
{
    match Path::new(alloc, b"/bin/sh") {
        Ok(program) => Ok(Command {
            program,
            args: Listed::from_vec(words),
            input: None,
        }),
        // It is a path, so this is want of memory.
        Err(_) => Err(Memory),
    }
}

fn command_on(alloc: Global, text: &Text, on: &[u8]) -> Result<Command, Memory>
    ensures { IfOk result (λ command. Some command ≡ script_command (Some text.now) (on.now ∷ [])) }
{
    let mut words = shell_words(alloc, text)?;
    push_text(alloc, &mut words, on)?;
    shell(alloc, words)
}

fn command_on_both(alloc: Global, text: &Text, on: &[u8], to: &[u8]) -> Result<Command, Memory>
    ensures { IfOk result (λ command. Some command ≡ script_command (Some text.now) (on.now ∷ to.now ∷ [])) }
{
    let mut words = shell_words(alloc, text)?;
    push_text(alloc, &mut words, on)?;
    push_text(alloc, &mut words, to)?;
    shell(alloc, words)
}

/// The script with one argument, where it is asked for and there is one.
pub fn script_on(
    alloc: Global,
    asked: bool,
    text: &Option<Text>,
    on: &[u8],
) -> Result<Option<Command>, Memory>
    ensures { IfOk result (λ command. command ≡ where_so asked (script_command text.now (on.now ∷ []))) }
{
    if !asked {
        return Ok(None);
    }
    match text {
        Some(text) => Ok(Some(command_on(alloc, text, on)?)),
        None => Ok(None),
    }
}

/// The script with two arguments, where it is asked for and there is one.
pub fn script_on_both(
    alloc: Global,
    asked: bool,
    text: &Option<Text>,
    on: &[u8],
    to: &[u8],
) -> Result<Option<Command>, Memory>
    ensures { IfOk result (λ command. command ≡ where_so asked (script_command text.now (on.now ∷ to.now ∷ []))) }
{
    if !asked {
        return Ok(None);
    }
    match text {
        Some(text) => Ok(Some(command_on_both(alloc, text, on, to)?)),
        None => Ok(None),
    }
}
