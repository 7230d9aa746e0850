// The copy that stands in the place of a log's rename.
ghost use Rattle.std.specs.Prelude.{◌≡◌, ◌≤◌, IfOk, length};
ghost use Rattle.lr_rules.specs.Names.{aside_path};
ghost use Rattle.lr_rules.specs.declared.rule.Way.TheVariants as way;
ghost use Rattle.lr_plan.specs.Planned.{has_part, copy_job, from_path, job_by, with_stand};

use crate::aside::is_file;
use lr_copy::{Job, part_path};
use lr_family::Stand;
use lr_plan::LogLook;
use lr_rules::{Memory, Path, Rule, Way, aside_path};
use std::alloc::Global;

// How many bytes are copied of a log at most.
const LIMIT: u64 = 1 << 40;

// Whether the part file is among these.
fn has_part(parts: &[Path], part: &Path) -> bool
    ensures { result ≡ has_part parts.now part.now }
{
    parts.iter().any(|one| part.is(one))
}

// The log's path, the final one, and the directory.
fn job_paths(alloc: Global, look: &LogLook, target: &Path) -> Result<(Path, Path, Path), Memory>
    ensures { IfOk result (λ paths. (paths.0 ≡ look.now.path) × (paths.1 ≡ target.now) × (paths.2 ≡ look.now.family.naming.dir)) }
{
    let from = look.path.copy(alloc)?;
    let to = target.copy(alloc)?;
    let dir = look.family.naming().dir.copy(alloc)?;
    Ok((from, to, dir))
}

// The copy of the log to this final path, where this stands of its family.
fn copy_job(
    alloc: Global,
    look: &LogLook,
    stand: &Stand,
    target: &Path,
    cut: bool,
) -> Result<Job, Memory>
    requires { length target.now ≤ 4081 }
    ensures { IfOk result (λ job. job ≡ copy_job (with_stand stand.now look.now) target.now cut) }
{
    let part = part_path(alloc, target)?;
    let (from, to, dir) = job_paths(alloc, look, target)?;
    let stale = has_part(stand.parts.as_slice(), &part);
    Ok(Job {
        from,
        part,
        to,
        dir,
        stale,
        mode: look.seen.mode,
        cut,
        limit: LIMIT,
    })
}

// The same copy from where the log waits.
fn from_aside(alloc: Global, log: &Path, job: Job) -> Result<Job, Memory>
    requires { length log.now ≤ 2048 }
    ensures { IfOk result (λ other. other ≡ from_path (aside_path log.now) job) }
{
    let mut job = job;
    job.from = aside_path(alloc, log)?;
    Ok(job)
}

// The copy of the log from where it is set aside, where it isn't taken up from there.
fn aside_job(
    alloc: Global,
    look: &LogLook,
    stand: &Stand,
    target: &Path,
) -> Result<Option<Job>, Memory>
    requires target { length target.now ≤ 4081 }
    requires log { length look.now.path ≤ 2048 }
    ensures { IfOk result (λ job. job ≡ job_by way.RenameCopy (with_stand stand.now look.now) target.now) }
{
    if is_file(&look.tmp) {
        return Ok(None);
    }
    let job = copy_job(alloc, look, stand, target, false)?;
    Ok(Some(from_aside(alloc, &look.path, job)?))
}

/// The copy by which the log gets to this final path, where its rule's way isn't a rename, and where this stands of its
/// family as the rotation begins.
pub fn job_of(
    alloc: Global,
    rule: &Rule,
    look: &LogLook,
    stand: &Stand,
    target: &Path,
) -> Result<Option<Job>, Memory>
    requires target { length target.now ≤ 4081 }
    requires log { length look.now.path ≤ 2048 }
    ensures { IfOk result (λ job. job ≡ job_by rule.now.way (with_stand stand.now look.now) target.now) }
{
    let cut = match rule.way {
        Way::Rename => return Ok(None),
        Way::Copy => false,
        Way::CopyTruncate => true,
        Way::RenameCopy => return aside_job(alloc, look, stand, target),
    };
    let job = copy_job(alloc, look, stand, target, cut)?;
    Ok(Some(job))
}
