// The copy of a log that was set aside.
ghost use Rattle.std.specs.Prelude.{◌≡◌, ◌<◌, ◌≤◌, length, true, false, Some, OnOk, IfOk};
ghost use Rattle.lr_rules.specs.Path.{parent_of};
ghost use Rattle.lr_host.specs.World.{world, past, names};
ghost use Rattle.lr_host.specs.Fits.{IsFileAt};
ghost use Rattle.lr_copy.specs.Fits.{ArePaths, CanCopy};

use crate::answer::{failed_call, number, said_path};
use crate::tests_of::{dir_at, file_at, is_free};
use lr_copy::{CopyStop, Job, part_path};
use lr_memhost::MemHost;
use lr_move::finish;
use lr_rows_line::Trouble;
use lr_rows_read::Cursor;
use lr_rules::Path;
use std::alloc::Global;

// What the words before the paths say.
#[derive(Clone, Copy)]
struct Wanted {
    stale: bool,
    mode: Option<u32>,
    limit: u64,
    buffer: usize,
}

// The number behind this word, if it comes.
fn behind(cursor: &mut Cursor, word: &[u8], otherwise: u64) -> Result<u64, Trouble> {
    if cursor.takes(word) {
        cursor.number()
    } else {
        Ok(otherwise)
    }
}

fn mode(cursor: &mut Cursor) -> Result<Option<u32>, Trouble> {
    if cursor.takes(b"mode") {
        Ok(Some(cursor.octal()?))
    } else {
        Ok(None)
    }
}

fn buffer_size(cursor: &mut Cursor) -> Result<usize, Trouble>
    ensures { IfOk result (λ size. (0 < size) × (size ≤ 65536)) }
{
    let size = behind(cursor, b"buffer", 65_536)?;
    if size == 0 || size > 65_536 {
        return Err(Trouble::Odd("a buffer has 1 to 65536 bytes"));
    }
    Ok(size as usize)
}

fn manner(cursor: &mut Cursor) -> Result<Wanted, Trouble>
    ensures { IfOk result (λ wanted. (0 < wanted.buffer) × (wanted.buffer ≤ 65536)) }
{
    let stale = cursor.takes(b"stale");
    let mode = mode(cursor)?;
    let limit = behind(cursor, b"limit", 1 << 40)?;
    let buffer = buffer_size(cursor)?;
    Ok(Wanted {
        stale,
        mode,
        limit,
        buffer,
    })
}

// The path of the part file.
fn part_of(alloc: Global, to: &Path) -> Result<Path, Trouble> {
    if to.bytes().len() > 4081 {
        return Err(Trouble::Odd("no part file has so long a path"));
    }
    Ok(part_path(alloc, to)?)
}

fn job(cursor: &mut Cursor, wanted: Wanted) -> Result<Job, Trouble>
    ensures { IfOk result (λ job. (job.dir ≡ parent_of job.to) × (job.cut ≡ false)) }
{
    let from = cursor.path()?;
    let to = cursor.path()?;
    let part = part_of(cursor.alloc, &to)?;
    let dir = to.parent(cursor.alloc)?;
    Ok(Job {
        from,
        part,
        to,
        dir,
        stale: wanted.stale,
        mode: wanted.mode,
        cut: false,
        limit: wanted.limit,
    })
}

// Trouble unless the paths are such that a copy can be made.
fn are_paths(alloc: Global, job: &Job) -> Result<(), Trouble>
    requires { job.now.dir ≡ parent_of job.now.to }
    ensures { OnOk result (ArePaths job.now) }
{
    if job.part.is(&job.from) || job.to.is(&job.from) || job.part.is(&job.to) {
        return Err(Trouble::Odd("the log has the path"));
    }
    if !job.part.parent(alloc)?.is(&job.dir) {
        return Err(Trouble::Odd("the part file is elsewhere"));
    }
    Ok(())
}

// Trouble unless a file has the path of an old part file, where there is to be one.
fn old_part(host: &MemHost, job: &Job) -> Result<(), Trouble>
    ensures { OnOk result (job.now.stale ≡ true → IsFileAt (names (world (past host.now.journal))) job.now.part) }
{
    if job.stale {
        file_at(host, &job.part)
    } else {
        Ok(())
    }
}

// Trouble unless what the copy asks for stands.
#[tactic(auto, using(crate::proofs::CanCopy::can_copy))]
fn is_there(host: &MemHost, job: &Job) -> Result<(), Trouble>
    ensures { OnOk result (CanCopy (Some host.now.journal) job.now) }
{
    file_at(host, &job.from)?;
    dir_at(host, &job.dir)?;
    is_free(host, &job.to)?;
    old_part(host, job)
}

fn finished(
    host: &mut MemHost,
    alloc: Global,
    job: &Job,
    buffer: &mut [u8],
) -> Result<Vec<u8>, Trouble>
    requires dir { job.now.dir ≡ parent_of job.now.to }
    requires uncut { job.now.cut ≡ false }
    requires room { 0 < length buffer.old }
    requires short { length buffer.old ≤ 65536 }
{
    are_paths(alloc, job)?;
    is_there(host, job)?;
    match finish(host, job, buffer) {
        Ok(count) => number(alloc, count),
        Err(CopyStop::Call(kind, path)) => failed_call(alloc, kind, path),
        Err(CopyStop::Taken(path)) => said_path(alloc, "name is taken:", path),
        Err(CopyStop::TooLong(path)) => said_path(alloc, "too long:", path),
    }
}

/// `finish [stale] [mode O] [limit N] [buffer N] WAITING TO`: copies the log from where it waits, lets it go there, and says how
/// many bytes that were.
pub fn finish_log(host: &mut MemHost, cursor: &mut Cursor) -> Result<Vec<u8>, Trouble> {
    let wanted = manner(cursor)?;
    let job = job(cursor, wanted)?;
    let mut buffer = vec![in cursor.alloc; 0u8; wanted.buffer]?;
    finished(host, cursor.alloc, &job, buffer.as_mut_slice())
}
