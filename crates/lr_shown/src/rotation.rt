// The lines of a rotation.
ghost use Rattle.std.specs.Prelude.{◌++◌, ◌∷◌, [], map, Some, if◌then◌else◌};
ghost use Rattle.lr_rules.specs.declared.fault.Phase.TheVariants as phase;
ghost use Rattle.lr_plan.specs.Steps.{anew, copy, directory, finishing, made_anew, move, program, removals, retirement_of};
ghost use Rattle.lr_plan.specs.Steps.{rotation_of, transfer};
ghost use Rattle.lr_plan.specs.declared.step.Step.TheVariants as step;
ghost use Rattle.lr_shown.specs.Lines.{lines_of, path_line};
ghost use Rattle.lr_shown.specs.Puts.{Puts};

use crate::pieces::{put_pair, put_path};
use crate::programs::{put_program, put_removals};
use lr_chain::{Move, Ready};
use lr_host::{Sink, SinkFault};
use lr_plan::{Job, LogPlan};
use lr_rules::{Make, Path, Phase};

fn put_moves<K: Sink>(moves: &[Move], out: &mut K) -> Result<(), SinkFault>
    ensures { Puts (lines_of (map move moves.now)) result (K.taken out.old) (K.taken out.new) (K.faults out.old)
        (K.faults out.new) }
{
    for one in moves {
        put_pair(b"rename ", &one.from, &one.to, out)?;
    }
    Ok(())
}

fn put_directory<K: Sink>(ready: &Ready, out: &mut K) -> Result<(), SinkFault>
    ensures { Puts (lines_of (directory ready.now.dir)) result (K.taken out.old) (K.taken out.new) (K.faults out.old)
        (K.faults out.new) }
{
    match &ready.dir {
        Some(dir) => put_path(b"mkdir ", &dir.0, out),
        None => Ok(()),
    }
}

fn put_path_if<K: Sink>(
    wanted: bool,
    does: &[u8],
    path: &Path,
    out: &mut K,
) -> Result<(), SinkFault>
    ensures { Puts (if wanted then path_line does.now path.now else []) result (K.taken out.old) (K.taken out.new)
        (K.faults out.old) (K.faults out.new) }
{
    if wanted {
        put_path(does, path, out)
    } else {
        Ok(())
    }
}

// The bytes go into the part file, and that to its final path.
fn put_bytes<K: Sink>(job: &Job, out: &mut K) -> Result<(), SinkFault>
    ensures { Puts (lines_of (step.Copies job.now.from job.now.part job.now.limit ∷ step.Renames job.now.part job.now.to ∷ []))
        result (K.taken out.old) (K.taken out.new) (K.faults out.old) (K.faults out.new) }
{
    put_pair(b"copy ", &job.from, &job.part, out)?;
    put_pair(b"rename ", &job.part, &job.to, out)
}

fn put_copy<K: Sink>(job: &Job, out: &mut K) -> Result<(), SinkFault>
    ensures { Puts (lines_of (copy job.now)) result (K.taken out.old) (K.taken out.new) (K.faults out.old) (K.faults out.new) }
{
    put_path_if(job.stale, b"remove ", &job.part, out)?;
    put_bytes(job, out)?;
    put_path_if(job.cut, b"truncate ", &job.from, out)
}

fn put_anew<K: Sink>(make: Make, log: &Path, out: &mut K) -> Result<(), SinkFault>
    ensures { Puts (lines_of (anew make log.now)) result (K.taken out.old) (K.taken out.new) (K.faults out.old) (K.faults out.new) }
{
    match make {
        Make::Yes(_) => put_path(b"create ", log, out),
        Make::No => Ok(()),
    }
}

// The log that is copied comes to its final path, or goes to where it waits.
fn put_copied<K: Sink>(
    ready: &Ready,
    job: &Job,
    aside: &Option<Path>,
    out: &mut K,
) -> Result<(), SinkFault>
    ensures { Puts (lines_of (transfer ready.now.log ready.now.target (Some job.now) aside.now)) result (K.taken out.old)
        (K.taken out.new) (K.faults out.old) (K.faults out.new) }
{
    match aside {
        Some(path) => put_pair(b"rename ", &ready.log, path, out),
        None => put_copy(job, out),
    }
}

// The log comes to its final path, or goes to where it waits.
fn put_transfer<K: Sink>(
    ready: &Ready,
    job: &Option<Job>,
    aside: &Option<Path>,
    out: &mut K,
) -> Result<(), SinkFault>
    ensures { Puts (lines_of (transfer ready.now.log ready.now.target job.now aside.now)) result (K.taken out.old)
        (K.taken out.new) (K.faults out.old) (K.faults out.new) }
{
    match job {
        Some(job) => put_copied(ready, job, aside, out),
        None => put_pair(b"rename ", &ready.log, &ready.target, out),
    }
}

fn put_made_anew<K: Sink>(log: &LogPlan, out: &mut K) -> Result<(), SinkFault>
    ensures { Puts (lines_of (made_anew log.now.ready.make log.now.log log.now.job log.now.aside)) result (K.taken out.old)
        (K.taken out.new) (K.faults out.old) (K.faults out.new) }
{
    if log.leaves_path() {
        put_anew(log.ready.make, &log.log, out)
    } else {
        Ok(())
    }
}

// The log's own way, and its making. That it counts as rotated has no line.
fn put_own_way<K: Sink>(log: &LogPlan, out: &mut K) -> Result<(), SinkFault>
    ensures { Puts (lines_of (transfer log.now.ready.log log.now.ready.target log.now.job log.now.aside
        ++ (step.Rotated log.now.log ∷ made_anew log.now.ready.make log.now.log log.now.job log.now.aside))) result
        (K.taken out.old) (K.taken out.new) (K.faults out.old) (K.faults out.new) }
{
    put_transfer(&log.ready, &log.job, &log.aside, out)?;
    put_made_anew(log, out)
}

// What comes before the log's own way: the leftovers, the directory and the chain.
fn put_chain<K: Sink>(ready: &Ready, out: &mut K) -> Result<(), SinkFault>
    ensures { Puts (lines_of (removals ready.now.leftovers ++ (directory ready.now.dir ++ map move ready.now.moves))) result
        (K.taken out.old) (K.taken out.new) (K.faults out.old) (K.faults out.new) }
{
    put_removals(ready.leftovers.as_slice(), out)?;
    put_directory(ready, out)?;
    put_moves(ready.moves.as_slice(), out)
}

/// Puts the lines of a log's rotation.
pub fn put_rotation<K: Sink>(log: &LogPlan, out: &mut K) -> Result<(), SinkFault>
    ensures { Puts (lines_of (rotation_of log.now)) result (K.taken out.old) (K.taken out.new) (K.faults out.old)
        (K.faults out.new) }
{
    put_chain(&log.ready, out)?;
    put_own_way(log, out)
}

// The copy of a log that waits, and its end.
fn put_letting_go<K: Sink>(job: &Job, path: &Path, out: &mut K) -> Result<(), SinkFault>
    ensures { Puts (lines_of (copy job.now ++ step.Removes path.now ∷ [])) result (K.taken out.old) (K.taken out.new)
        (K.faults out.old) (K.faults out.new) }
{
    put_copy(job, out)?;
    put_path(b"remove ", path, out)
}

// What is left to do for a log that was set aside.
fn put_finishing<K: Sink>(
    job: &Option<Job>,
    aside: &Option<Path>,
    out: &mut K,
) -> Result<(), SinkFault>
    ensures { Puts (lines_of (finishing job.now aside.now)) result (K.taken out.old) (K.taken out.new) (K.faults out.old)
        (K.faults out.new) }
{
    match job {
        Some(job) => match aside {
            Some(path) => put_letting_go(job, path, out),
            None => Ok(()),
        },
        None => Ok(()),
    }
}

// The mail of the first file, and the removals.
fn put_removing<K: Sink>(log: &LogPlan, out: &mut K) -> Result<(), SinkFault>
    ensures { Puts (lines_of (program phase.Mail log.now.first_mail ++ removals log.now.ready.retire)) result (K.taken out.old)
        (K.taken out.new) (K.faults out.old) (K.faults out.new) }
{
    put_program(Phase::Mail, log.first_mail.as_ref(), out)?;
    put_removals(log.ready.retire.as_slice(), out)
}

/// Puts the lines of its retirement.
pub fn put_retirement<K: Sink>(log: &LogPlan, out: &mut K) -> Result<(), SinkFault>
    ensures { Puts (lines_of (retirement_of log.now)) result (K.taken out.old) (K.taken out.new) (K.faults out.old)
        (K.faults out.new) }
{
    put_finishing(&log.job, &log.aside, out)?;
    put_removing(log, out)
}
