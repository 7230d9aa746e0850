// The file that the text is first written to.
ghost use Rattle.std.specs.Prelude.{◌≡◌, [], ◌∷◌, length, Some};
ghost use Rattle.lr_state.specs.Written.{table_text};
ghost use Rattle.lr_plan.specs.declared.step.Step.TheVariants as step;
ghost use Rattle.lr_plan.specs.Steps.{step_if};
ghost use Rattle.lr_plan.specs.Asking.{CanMake};
ghost use Rattle.lr_writing.specs.Writes.{ComesTo, refusal_fault, refusal, part_steps};

use crate::refused::Refused;
use crate::text::append_table;
use lr_host::Host;
use lr_rules::{CallKind, Fault, Path};
use lr_state::State;

/// The fault of a refusal at this path.
pub fn fault_at(path: Path, why: Refused) -> Fault
    ensures { result ≡ refusal_fault path why }
{
    match why {
        Refused::Call(kind) => Fault::Call(kind, path),
        Refused::Taken => Fault::Taken(path),
    }
}

// Unlinks an old file, where one was seen.
fn clear_part<H: Host>(host: &mut H, part: &Path, stale: bool) -> Result<(), Refused>
    requires { CanMake (H.told host.old) (step_if stale (step.Removes part.now)) }
    ensures { ComesTo (step_if stale (step.Removes part.now)) (refusal part.now result) (H.told host.old) (H.told host.new)
        (H.counts host.old) (H.counts host.new) }
{
    if !stale {
        return Ok(());
    }
    match host.unlink(part) {
        Ok(()) => Ok(()),
        Err(_) => Err(Refused::Call(CallKind::Unlink)),
    }
}

// Makes the file, which its owner may read and write, and its group may read.
fn take_part<H: Host>(host: &mut H, part: &Path) -> Result<(), Refused>
    requires { CanMake (H.told host.old) (step.Takes part.now (Some 416) ∷ []) }
    ensures { ComesTo (step.Takes part.now (Some 416) ∷ []) (refusal part.now result) (H.told host.old) (H.told host.new)
        (H.counts host.old) (H.counts host.new) }
{
    match host.make_new(part, Some(0o640)) {
        Ok(true) => Ok(()),
        Ok(false) => Err(Refused::Taken),
        Err(_) => Err(Refused::Call(CallKind::Make)),
    }
}

// Puts the text of the table into the file.
fn fill_part<H: Host>(
    host: &mut H,
    part: &Path,
    table: &State,
    buffer: &mut [u8],
) -> Result<(), Refused>
    requires fits { CanMake (H.told host.old) (step.Appends part.now (table_text table.now) ∷ []) }
    requires size { length buffer.old ≡ 65_536 }
    ensures { ComesTo (step.Appends part.now (table_text table.now) ∷ []) (refusal part.now result) (H.told host.old)
        (H.told host.new) (H.counts host.old) (H.counts host.new) }
{
    match append_table(host, part, table, buffer) {
        Ok(()) => Ok(()),
        Err(_) => Err(Refused::Call(CallKind::Append)),
    }
}

// Makes its bytes durable.
fn sync_part<H: Host>(host: &mut H, part: &Path) -> Result<(), Refused>
    requires { CanMake (H.told host.old) (step.SyncsFile part.now ∷ []) }
    ensures { ComesTo (step.SyncsFile part.now ∷ []) (refusal part.now result) (H.told host.old) (H.told host.new)
        (H.counts host.old) (H.counts host.new) }
{
    match host.sync_file(part) {
        Ok(()) => Ok(()),
        Err(_) => Err(Refused::Call(CallKind::Sync)),
    }
}

/// Writes the text of the table to the part file, through a buffer of 65,536 bytes, and syncs it; an old file is unlinked
/// before, where one was seen.
pub fn write_part<H: Host>(
    host: &mut H,
    part: &Path,
    stale: bool,
    table: &State,
    buffer: &mut [u8],
) -> Result<(), Refused>
    requires fits { CanMake (H.told host.old) (part_steps part.now stale (table_text table.now)) }
    requires size { length buffer.old ≡ 65_536 }
    ensures { ComesTo (part_steps part.now stale (table_text table.now)) (refusal part.now result) (H.told host.old)
        (H.told host.new) (H.counts host.old) (H.counts host.new) }
{
    clear_part(host, part, stale)?;
    take_part(host, part)?;
    fill_part(host, part, table, buffer)?;
    sync_part(host, part)
}
