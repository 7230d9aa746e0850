// The plan of one log that is due, whose rotation is ready.
ghost use Rattle.std.specs.Prelude.{◌≡◌, ◌≤◌, ◌++◌, ◌∷◌, [], not, length, OnOk, IfOk};
ghost use Rattle.lr_plan.specs.Planned.{dir_of, stand_for, with_log, first_path, aside_by};
ghost use Rattle.lr_plan.specs.Planned.{standing, dressed, job_by, plan_with};
ghost use Rattle.lr_chain.specs.Ready.{with_dir};
ghost use Rattle.lr_scripts.specs.Commands.{script_command, where_so, mail};

use crate::aside::{aside_of, first_path};
use crate::commands::own_scripts;
use crate::copying::job_of;
use crate::directory::made_dir;
use lr_chain::Ready;
use lr_copy::Job;
use lr_family::Stand;
use lr_plan::{LogLook, LogPlan};
use lr_rules::{Memory, Naming, Path, Rule};
use lr_scripts::{Command, mail_of, with_programs};
use std::alloc::Global;

// The rotation with the programs of its definition before each removal, of which a mail has the log's path as its subject.
fn with_all_programs(
    alloc: Global,
    rule: &Rule,
    mailer: &Path,
    log: &Path,
    ready: Ready,
) -> Result<Ready, Memory>
    ensures { IfOk result (λ full. full ≡ dressed rule.now mailer.now log.now ready) }
{
    let Ready {
        leftovers,
        dir,
        moves,
        log: from,
        target,
        make,
        retire,
    } = ready;
    let Ok(leftovers) = with_programs(alloc, rule, mailer, log, leftovers) else {
        drop((dir, moves, from, target, retire));
        return Err(Memory);
    };
    let Ok(retire) = with_programs(alloc, rule, mailer, log, retire) else {
        drop((leftovers, dir, moves, from, target));
        return Err(Memory);
    };
    Ok(Ready {
        leftovers,
        dir,
        moves,
        log: from,
        target,
        make,
        retire,
    })
}

// The rotation of the file from where it stands, with the directory that it makes, if any.
fn with_made_dir(alloc: Global, rule: &Rule, look: &LogLook, ready: Ready) -> Result<Ready, Memory>
    requires { length look.now.path ≤ 2048 }
    ensures { IfOk result (λ made. made ≡ with_dir (dir_of rule.now look.now)
        (with_log (first_path rule.now.way look.now.path look.now.tmp) ready)) }
{
    let mut ready = ready;
    ready.log = first_path(alloc, rule, look)?;
    ready.dir = made_dir(alloc, rule, look)?;
    Ok(ready)
}

// The log's path, how the members of its family are named, and what stands of it.
fn copy_family(
    alloc: Global,
    look: &LogLook,
    stand: &Stand,
) -> Result<(Path, Naming, Stand), Memory>
    ensures { IfOk result (λ copy. (copy.0 ≡ look.now.path) × (copy.1 ≡ look.now.family.naming) × (copy.2 ≡ stand.now)) }
{
    let log = look.path.copy(alloc)?;
    let naming = look.family.naming().copy(alloc)?;
    let stand = stand.copy(alloc)?;
    Ok((log, naming, stand))
}

// The programs around the rotation of a log that goes to this path, and with `mailfirst` the mail of the file that was it.
fn log_programs(
    alloc: Global,
    rule: &Rule,
    mailer: &Path,
    log: &Path,
    target: &Path,
) -> Result<(Option<Command>, Option<Command>, Option<Command>), Memory>
    ensures pre { IfOk result (λ three. three.0 ≡ where_so (not rule.now.shared)
        (script_command rule.now.scripts.pre (log.now ∷ []))) }
    ensures post { IfOk result (λ three. three.1 ≡ where_so (not rule.now.shared)
        (script_command rule.now.scripts.post (log.now ∷ target.now ∷ []))) }
    ensures first_mail { IfOk result (λ three. three.2 ≡ where_so rule.now.mailfirst
        (mail mailer.now rule.now.mail log.now target.now)) }
{
    let (pre, post) = own_scripts(alloc, rule, log, target)?;
    let first_mail = mail_of(alloc, rule.mailfirst, mailer, &rule.mail, log, target)?;
    Ok((pre, post, first_mail))
}

// The plan of a log whose rotation is ready, where this stands of its family, and its copy, where it goes by one; with its
// own scripts.
fn scripted(
    alloc: Global,
    rule: &Rule,
    mailer: &Path,
    look: &LogLook,
    stand: &Stand,
    ready: Ready,
    job: Option<Job>,
    aside: Option<Path>,
) -> Result<LogPlan, Memory>
    requires stand { stand.now ≡ stand_for rule.now look.now }
    requires job { job ≡ job_by rule.now.way (standing rule.now look.now) ready.target }
    requires aside { aside ≡ aside_by rule.now.way look.now.path look.now.tmp }
    ensures { IfOk result (λ plan. plan ≡ plan_with mailer.now rule.now (standing rule.now look.now) ready) }
{
    let Ok(programs) = log_programs(alloc, rule, mailer, &look.path, &ready.target) else {
        drop((ready, job, aside));
        return Err(Memory);
    };
    let Ok(ready) = with_all_programs(alloc, rule, mailer, &look.path, ready) else {
        drop((programs, job, aside));
        return Err(Memory);
    };
    let Ok((log, naming, stand)) = copy_family(alloc, look, stand) else {
        drop((programs, ready, job, aside));
        return Err(Memory);
    };
    let (pre, post, first_mail) = programs;
    Ok(LogPlan {
        log,
        pre,
        post,
        first_mail,
        ready,
        job,
        aside,
        naming,
        count: rule.count,
        maxage: rule.maxage,
        stand,
    })
}

/// Adds the plan of a log whose rotation is ready, but for the directory that it makes; this stands of its family then.
pub fn add_plan(
    alloc: Global,
    rule: &Rule,
    mailer: &Path,
    look: &LogLook,
    stand: &Stand,
    ready: Ready,
    plans: &mut Vec<LogPlan>,
) -> Result<(), Memory>
    requires stand { stand.now ≡ stand_for rule.now look.now }
    requires short { length ready.target ≤ 4081 }
    requires log { length look.now.path ≤ 2048 }
    ensures { OnOk result (plans.new.items ≡ plans.old.items
        ++ plan_with mailer.now rule.now (standing rule.now look.now)
        (with_dir (dir_of rule.now look.now) (with_log (first_path rule.now.way look.now.path look.now.tmp) ready)) ∷ []) }
{
    let Ok(job) = job_of(alloc, rule, look, stand, &ready.target) else {
        drop(ready);
        return Err(Memory);
    };
    let Ok(aside) = aside_of(alloc, rule, look) else {
        drop((ready, job));
        return Err(Memory);
    };
    let Ok(ready) = with_made_dir(alloc, rule, look, ready) else {
        drop((job, aside));
        return Err(Memory);
    };
    plans.push(scripted(alloc, rule, mailer, look, stand, ready, job, aside)?)?;
    Ok(())
}
