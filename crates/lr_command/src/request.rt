// The request of the command line.
ghost use Rattle.std.specs.Prelude.{◌≡◌, ◌&&◌, IfOk, Some, None, true, false};
ghost use Rattle.clap.specs.Words.{found_of, rows_of};
ghost use Rattle.lr_command.specs.Command.{has_flag};
ghost use Rattle.lr_command.specs.Words.{asked_request, confs_in, has_confs, has_mailer, has_state};
ghost use Rattle.lr_command.specs.Words.{mailer_in, request_in, request_where};
ghost use Rattle.lr_command.specs.Words.{settings_with, state_in, state_value};
ghost use Rattle.lr_rules.specs.StatePath.{can_be_state};

use crate::found::{find, has_flag, texts_of, value_of};
use crate::paths::{mailer_of, paths_of, state_of};
use clap::ArgMatches;
use lr_rules::{Listed, Path, Settings, Text};
use std::alloc::Global;

/// What the words ask for.
#[derive(Drop)]
pub struct Request {
    pub settings: Settings,
    /// The configurations, in order of reading.
    pub confs: Listed<Path>,
}

/// Why words ask for nothing.
#[derive(Clone, Copy)]
pub enum WordsFault {
    /// They aren't in the program's form, or a path that they name is none, or the state file can't have its own.
    Refused,
    Memory,
}

// The path of the state file.
fn state_found(alloc: Global, here: &Path, found: &ArgMatches<'_>) -> Result<Path, WordsFault>
    ensures state { IfOk result (λ path. path ≡ state_in here.now (rows_of (found_of found.now))) }
    ensures has_state { IfOk result (λ path. has_state here.now (state_value (rows_of (found_of found.now))) ≡ true) }
    ensures fits { IfOk result (λ path. can_be_state path ≡ true) }
    ensures refused { result ≡ Err WordsFault.Refused → has_state here.now (state_value (rows_of (found_of found.now))) ≡ false }
{
    state_of(alloc, here, value_of(found, "state"))
}

// The path of the program that mails files.
fn mailer_found(alloc: Global, here: &Path, found: &ArgMatches<'_>) -> Result<Path, WordsFault>
    ensures mailer { IfOk result (λ path. path ≡ mailer_in here.now (rows_of (found_of found.now))) }
    ensures has_mailer { IfOk result (λ path. has_mailer here.now (rows_of (found_of found.now)) ≡ true) }
    ensures refused { result ≡ Err WordsFault.Refused → has_mailer here.now (rows_of (found_of found.now)) ≡ false }
{
    mailer_of(alloc, here, value_of(found, "mail"))
}

// The configurations.
fn confs_of(alloc: Global, here: &Path, found: &ArgMatches<'_>) -> Result<Listed<Path>, WordsFault>
    ensures confs { IfOk result (λ confs. confs ≡ confs_in here.now (rows_of (found_of found.now))) }
    ensures has_confs { IfOk result (λ confs. has_confs here.now (rows_of (found_of found.now)) ≡ true) }
    ensures refused { result ≡ Err WordsFault.Refused → has_confs here.now (rows_of (found_of found.now)) ≡ false }
{
    paths_of(alloc, here, found.get_strs("conf").unwrap_or(&[]))
}

// The settings with these paths, and with the flags that were found.
fn settings_of(found: &ArgMatches<'_>, state: Path, mailer: Path) -> Settings
    requires { can_be_state state ≡ true }
    ensures { (fits : can_be_state state ≡ true) × (result ≡ settings_with state mailer (rows_of (found_of found.now)) fits) }
{
    Settings {
        state,
        mailer,
        force: has_flag(found, "force"),
        debug: has_flag(found, "debug"),
        verbose: has_flag(found, "verbose"),
    }
}

// The request with this state file.
fn request_with(
    alloc: Global,
    here: &Path,
    found: &ArgMatches<'_>,
    state: Path,
) -> Result<Request, WordsFault>
    requires state { state ≡ state_in here.now (rows_of (found_of found.now)) }
    requires fits { can_be_state state ≡ true }
    ensures request { IfOk result (λ request. (fits : can_be_state (state_in here.now (rows_of (found_of found.now))) ≡ true)
        × (request ≡ request_in here.now (rows_of (found_of found.now)) fits)) }
    ensures has_mailer { IfOk result (λ request. has_mailer here.now (rows_of (found_of found.now)) ≡ true) }
    ensures has_confs { IfOk result (λ request. has_confs here.now (rows_of (found_of found.now)) ≡ true) }
    ensures refused { result ≡ Err WordsFault.Refused → (has_mailer here.now (rows_of (found_of found.now)) && has_confs here.now
        (rows_of (found_of found.now))) ≡ false }
{
    let mailer = mailer_found(alloc, here, found)?;
    let confs = confs_of(alloc, here, found)?;
    Ok(Request {
        settings: settings_of(found, state, mailer),
        confs,
    })
}

// The request of what was found.
#[tactic(auto, using(crate::proofs::Asked::asks, crate::proofs::Asked::asks_none, crate::proofs::Asked::asks_no_path))]
fn request_of_found(
    alloc: Global,
    here: &Path,
    found: &ArgMatches<'_>,
) -> Result<Request, WordsFault>
    ensures request { IfOk result (λ request. request_where here.now (rows_of (found_of found.now)) ≡ Some request) }
    ensures refused { result ≡ Err WordsFault.Refused → request_where here.now (rows_of (found_of found.now)) ≡ None }
{
    let state = state_found(alloc, here, found)?;
    request_with(alloc, here, found, state)
}

/// The request that the words ask for, where a relative path stands behind `here`.
#[tactic(auto, unfolding(crate::specs::Words::asked_request))]
pub fn request_of(alloc: Global, words: &[Text], here: &Path) -> Result<Request, WordsFault>
    ensures request { IfOk result (λ request. asked_request here.now words.now ≡ Some request) }
    ensures refused { result ≡ Err WordsFault.Refused → asked_request here.now words.now ≡ None }
{
    let texts = texts_of(alloc, words)?;
    let found = find(alloc, texts.as_slice())?;
    request_of_found(alloc, here, &found)
}
