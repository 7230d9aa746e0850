// How the part file gets the state's path.
ghost use Rattle.std.specs.Prelude.{[], ◌∷◌, ◌++◌, map};
ghost use Rattle.lr_plan.specs.declared.step.Step.TheVariants as step;
ghost use Rattle.lr_plan.specs.Asking.{CanMake};
ghost use Rattle.lr_writing.specs.Writes.{ComesTo, faults_in, name_steps};

use lr_host::Host;
use lr_rules::{CallKind, Fault, Listed, Path};

// Makes the name changes in a directory durable.
fn sync_one<H: Host>(host: &mut H, dir: Path) -> Result<(), Fault>
    requires { CanMake (H.told host.old) (step.SyncsDir dir ∷ []) }
    ensures { ComesTo (step.SyncsDir dir ∷ []) (faults_in result) (H.told host.old) (H.told host.new) (H.counts host.old)
        (H.counts host.new) }
{
    match host.sync_dir(&dir) {
        Ok(()) => Ok(()),
        Err(_) => Err(Fault::Call(CallKind::Sync, dir)),
    }
}

// Makes the name changes in these directories durable, in order, up to a failed call.
fn sync_all<H: Host>(host: &mut H, dirs: Listed<Path>) -> Result<(), Fault>
    requires { CanMake (H.told host.old) (map step.SyncsDir dirs) }
    ensures { ComesTo (map step.SyncsDir dirs) (faults_in result) (H.told host.old) (H.told host.new) (H.counts host.old)
        (H.counts host.new) }
{
    for dir in dirs.into_vec() {
        sync_one(host, dir)?;
    }
    Ok(())
}

// Gives the part file the state's path.
fn rename_part<H: Host>(host: &mut H, part: Path, state: &Path) -> Result<(), Fault>
    requires { CanMake (H.told host.old) (step.Renames part state.now ∷ []) }
    ensures { ComesTo (step.Renames part state.now ∷ []) (faults_in result) (H.told host.old) (H.told host.new) (H.counts host.old)
        (H.counts host.new) }
{
    match host.rename(&part, state) {
        Ok(()) => Ok(()),
        Err(_) => Err(Fault::Call(CallKind::Rename, part)),
    }
}

// Gives the part file the state's path, and makes that durable.
fn name_state<H: Host>(host: &mut H, part: Path, state: &Path, dir: Path) -> Result<(), Fault>
    requires { CanMake (H.told host.old) (name_steps part state.now dir) }
    ensures { ComesTo (name_steps part state.now dir) (faults_in result) (H.told host.old) (H.told host.new) (H.counts host.old)
        (H.counts host.new) }
{
    rename_part(host, part, state)?;
    sync_one(host, dir)
}

/// Makes the name changes in these directories durable, and then gives the part file the state's path, durably.
pub fn name_synced<H: Host>(
    host: &mut H,
    part: Path,
    state: Path,
    dir: Path,
    dirs: Listed<Path>,
) -> Result<(), Fault>
    requires { CanMake (H.told host.old) (map step.SyncsDir dirs ++ name_steps part state dir) }
    ensures { ComesTo (map step.SyncsDir dirs ++ name_steps part state dir) (faults_in result) (H.told host.old) (H.told host.new)
        (H.counts host.old) (H.counts host.new) }
{
    sync_all(host, dirs)?;
    name_state(host, part, &state, dir)
}
