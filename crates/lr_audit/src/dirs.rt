// The directories of logs and of their families.
ghost use Rattle.std.specs.Prelude.{◌≡◌, ◌++◌, map, IfOk, OnOk};
ghost use Rattle.std.specs.List.{flat_map};
ghost use Rattle.lr_rules.specs.Path.{parent_of};
ghost use Rattle.lr_audit.specs.Dirs.{look_dir, set_dirs, asked_dirs, AreDirs};

use lr_host::{leave_once, put_in_order};
use lr_plan::{LogLook, Looks, SetLooks};
use lr_rules::{Memory, Path};
use std::alloc::Global;

// Adds the directories of these logs.
fn add_parents(alloc: Global, dirs: &mut Vec<Path>, logs: &[Path]) -> Result<(), Memory>
    ensures { OnOk result (dirs.new.items ≡ dirs.old.items ++ map parent_of logs.now) }
{
    for log in logs {
        dirs.push(log.parent(alloc)?)?;
    }
    Ok(())
}

// Adds the directory of a log's family, where that is there.
fn add_family_dir(alloc: Global, dirs: &mut Vec<Path>, look: &LogLook) -> Result<(), Memory>
    ensures { OnOk result (dirs.new.items ≡ dirs.old.items ++ look_dir look.now) }
{
    if look.stand.there {
        dirs.push(look.family.naming().dir.copy(alloc)?)?;
    }
    Ok(())
}

fn add_set_dirs(alloc: Global, dirs: &mut Vec<Path>, looks: &[LogLook]) -> Result<(), Memory>
    ensures { OnOk result (dirs.new.items ≡ dirs.old.items ++ flat_map look_dir looks.now) }
{
    for look in looks {
        add_family_dir(alloc, dirs, look)?;
    }
    Ok(())
}

fn add_sets_dirs(alloc: Global, dirs: &mut Vec<Path>, sets: &[SetLooks]) -> Result<(), Memory>
    ensures { OnOk result (dirs.new.items ≡ dirs.old.items ++ flat_map set_dirs sets.now) }
{
    for set in sets {
        add_set_dirs(alloc, dirs, set.logs.as_slice())?;
    }
    Ok(())
}

// The same, each once.
fn each_once(dirs: &mut Vec<Path>)
    ensures { AreDirs dirs.old.items dirs.new.items }
{
    put_in_order(dirs);
    leave_once(dirs);
}

/// The directories of the logs that are kept, and of their families that were seen: each once, in order of bytes.
pub fn dirs_of(alloc: Global, looks: &Looks) -> Result<Vec<Path>, Memory>
    ensures { IfOk result (λ dirs. AreDirs (asked_dirs looks.now) dirs.items) }
{
    let mut dirs = Vec::new(alloc);
    add_parents(alloc, &mut dirs, looks.kept.as_slice())?;
    add_sets_dirs(alloc, &mut dirs, looks.sets.as_slice())?;
    each_once(&mut dirs);
    Ok(dirs)
}
