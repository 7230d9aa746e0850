// The programs before the removal of a file.
ghost use Rattle.std.specs.Prelude.{◌≡◌, ◌∷◌, [], None, Some, codes, map, not, IfOk};
ghost use Rattle.lr_scripts.specs.Commands.{script_command, where_so, mail, with_programs};

use crate::command::Command;
use crate::removal::Removal;
use crate::script::script_on;
use lr_rules::{Listed, Memory, Path, Rule, Text, text_of};
use std::alloc::Global;

// The words of a mailer: its option, the subject and the address.
fn mail_words(alloc: Global, log: &Path, address: &Text) -> Result<Vec<Text>, Memory>
    ensures { IfOk result (λ words. words.items ≡ codes "-s" ∷ log.now ∷ address.now ∷ []) }
{
    let option = text_of(alloc, b"-s")?;
    let subject = text_of(alloc, log.bytes())?;
    let address = address.copy(alloc)?;
    Ok(Vec::from_array(alloc, [option, subject, address])?)
}

fn mail_command(
    alloc: Global,
    mailer: &Path,
    address: &Text,
    log: &Path,
    file: &Path,
) -> Result<Command, Memory>
    ensures { IfOk result (λ command. Some command ≡ mail mailer.now (Some address.now) log.now file.now) }
{
    let words = mail_words(alloc, log, address)?;
    let program = mailer.copy(alloc)?;
    let input = file.copy(alloc)?;
    Ok(Command {
        program,
        args: Listed::from_vec(words),
        input: Some(input),
    })
}

/// The mail of a file of this log, where it is asked for and there is an address.
pub fn mail_of(
    alloc: Global,
    asked: bool,
    mailer: &Path,
    address: &Option<Text>,
    log: &Path,
    file: &Path,
) -> Result<Option<Command>, Memory>
    ensures { IfOk result (λ command. command ≡ where_so asked (mail mailer.now address.now log.now file.now)) }
{
    if !asked {
        return Ok(None);
    }
    match address {
        Some(address) => Ok(Some(mail_command(alloc, mailer, address, log, file)?)),
        None => Ok(None),
    }
}

// The file that is to be removed, without the programs that it had.
fn file_of(removal: Removal) -> Path
    ensures { result ≡ removal.path }
{
    let Removal { path, .. } = removal;
    path
}

// The removal of this file of the log, behind its programs.
fn removal_of(
    alloc: Global,
    rule: &Rule,
    mailer: &Path,
    log: &Path,
    path: Path,
) -> Result<Removal, Memory>
    ensures { IfOk result (λ removal. removal ≡ record {
      path = path;
      preremove = script_command rule.now.scripts.preremove (path ∷ []);
      mail = where_so (not rule.now.mailfirst) (mail mailer.now rule.now.mail log.now path);
    }) }
{
    let preremove = script_on(alloc, true, &rule.scripts.preremove, path.bytes())?;
    let mail = mail_of(alloc, !rule.mailfirst, mailer, &rule.mail, log, &path)?;
    Ok(Removal {
        path,
        preremove,
        mail,
    })
}

/// The removals of these files of the log, each behind the programs that its definition has.
pub fn with_programs(
    alloc: Global,
    rule: &Rule,
    mailer: &Path,
    log: &Path,
    removals: Listed<Removal>,
) -> Result<Listed<Removal>, Memory>
    ensures { IfOk result (λ dressed. dressed ≡ map (with_programs rule.now mailer.now log.now) removals) }
{
    let mut dressed = Vec::new(alloc);
    for removal in removals.into_vec() {
        dressed.push(removal_of(alloc, rule, mailer, log, file_of(removal))?)?;
    }
    Ok(Listed::from_vec(dressed))
}
