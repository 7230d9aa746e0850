// A log that is set aside, behind the move of one member, or behind the making of the members' directory.
ghost use Rattle.std.specs.Prelude.{◌≡◌, ◌≢◌, [], ◌∷◌, Some, None, OnOk, IfOk};
ghost use Rattle.lr_host.specs.declared.entry.Entry.TheVariants as entry;
ghost use Rattle.lr_host.specs.World.{world, past, names};
ghost use Rattle.lr_host.specs.Steps.{CanAll};
ghost use Rattle.lr_rows_host.specs.Place.{IsPlace};

use crate::answer::{failed_call, said, said_path};
use crate::tests_of::{dir_at, file_at, is_free, place_at};
use lr_chain::{ChainStop, Move, Ready};
use lr_memhost::MemHost;
use lr_move::set_aside;
use lr_rows_line::Trouble;
use lr_rows_read::Cursor;
use lr_rules::{Listed, Make, Path};
use std::alloc::Global;

// The log, where it is to wait, and the directory of its members.
#[derive(Drop)]
struct Ways {
    log: Path,
    tmp: Path,
    dir: Path,
}

fn paths(cursor: &mut Cursor) -> Result<Ways, Trouble> {
    let log = cursor.path()?;
    let tmp = cursor.path()?;
    let dir = cursor.path()?;
    Ok(Ways { log, tmp, dir })
}

fn step(cursor: &mut Cursor) -> Result<Move, Trouble> {
    let from = cursor.path()?;
    let to = cursor.path()?;
    Ok(Move { from, to })
}

// ---- what it asks for

// Trouble unless a rename can give a file the path.
#[tactic(auto, using(crate::proofs::CanSetAside::is_place))]
fn place_for(alloc: Global, host: &MemHost, path: &Path) -> Result<(), Trouble>
    ensures { OnOk result (IsPlace (names (world (past host.now.journal))) path.now) }
{
    place_at(alloc, host, path)?;
    is_free(host, path)
}

// Trouble where both are one path.
fn are_two(path: &Path, other: &Path) -> Result<(), Trouble>
    ensures { OnOk result (path.now ≢ other.now) }
{
    if path.is(other) {
        return Err(Trouble::Odd("two of the paths are one"));
    }
    Ok(())
}

// Trouble unless the member can be moved, and then the log.
#[tactic(auto, using(crate::proofs::CanSetAside::can_behind_move))]
fn can_move(alloc: Global, host: &MemHost, ways: &Ways, step: &Move) -> Result<(), Trouble>
    ensures { OnOk result (CanAll (Some host.now.journal) (entry.Renames step.now.from step.now.to ∷ entry.SyncsDir ways.now.dir
        ∷ entry.Renames ways.now.log ways.now.tmp ∷ [])) }
{
    file_at(host, &step.from)?;
    place_for(alloc, host, &step.to)?;
    file_at(host, &ways.log)?;
    place_for(alloc, host, &ways.tmp)?;
    dir_at(host, &ways.dir)?;
    are_two(&step.from, &step.to)?;
    are_two(&ways.log, &ways.tmp)?;
    are_two(&step.from, &ways.log)?;
    are_two(&step.to, &ways.log)?;
    are_two(&step.from, &ways.tmp)?;
    are_two(&step.to, &ways.tmp)?;
    Ok(())
}

// Trouble unless the directory can be made, or stands, and then the log can be moved.
#[tactic(auto, using(crate::proofs::CanSetAside::can_behind_making))]
fn can_make(alloc: Global, host: &MemHost, ways: &Ways, mode: Option<u32>) -> Result<(), Trouble>
    ensures { OnOk result (CanAll (Some host.now.journal) (entry.MakesDir ways.now.dir mode ∷ entry.SyncsDir ways.now.dir
        ∷ entry.Renames ways.now.log ways.now.tmp ∷ [])) }
{
    place_at(alloc, host, &ways.dir)?;
    file_at(host, &ways.log)?;
    place_for(alloc, host, &ways.tmp)?;
    are_two(&ways.log, &ways.tmp)?;
    are_two(&ways.dir, &ways.log)?;
    are_two(&ways.dir, &ways.tmp)?;
    Ok(())
}

// ---- the rotation

fn moves_of(alloc: Global, step: Move) -> Result<Listed<Move>, Trouble>
    ensures { IfOk result (λ moves. moves ≡ step ∷ []) }
{
    let mut moves = Vec::new(alloc);
    moves.push(step)?;
    Ok(Listed::from_vec(moves))
}

// Where the log goes later makes no difference.
fn ready(
    alloc: Global,
    dir: Option<(Path, Option<u32>)>,
    moves: Listed<Move>,
    log: Path,
    target: Path,
) -> Ready
    ensures made { result.dir ≡ dir }
    ensures moved { result.moves ≡ moves }
    ensures named { result.log ≡ log }
{
    Ready {
        leftovers: Listed::new(alloc),
        dir,
        moves,
        log,
        target,
        make: Make::No,
        retire: Listed::new(alloc),
    }
}

fn behind_move(alloc: Global, log: &Path, step: Move) -> Result<Ready, Trouble>
    ensures made { IfOk result (λ ready. ready.dir ≡ None) }
    ensures moved { IfOk result (λ ready. ready.moves ≡ step ∷ []) }
    ensures named { IfOk result (λ ready. ready.log ≡ log.now) }
{
    let moves = moves_of(alloc, step)?;
    let target = log.copy(alloc)?;
    let log = log.copy(alloc)?;
    Ok(ready(alloc, None, moves, log, target))
}

fn behind_making(alloc: Global, ways: &Ways, mode: Option<u32>) -> Result<Ready, Trouble>
    ensures made { IfOk result (λ ready. ready.dir ≡ Some (ways.now.dir, mode)) }
    ensures moved { IfOk result (λ ready. ready.moves ≡ []) }
    ensures named { IfOk result (λ ready. ready.log ≡ ways.now.log) }
{
    let dir = ways.dir.copy(alloc)?;
    let target = ways.log.copy(alloc)?;
    let log = ways.log.copy(alloc)?;
    Ok(ready(alloc, Some((dir, mode)), Listed::new(alloc), log, target))
}

// ---- the call

fn told(alloc: Global, got: Result<(), ChainStop>) -> Result<Vec<u8>, Trouble> {
    match got {
        Ok(()) => said(alloc, "done"),
        Err(ChainStop::Call(kind, path)) => failed_call(alloc, kind, path),
        Err(ChainStop::NotFile(path)) => said_path(alloc, "no directory:", path),
    }
}

#[tactic(auto, using(crate::proofs::CanSetAside::one_move))]
fn move_aside(host: &mut MemHost, cursor: &mut Cursor, ways: &Ways) -> Result<Vec<u8>, Trouble> {
    let step = step(cursor)?;
    can_move(cursor.alloc, host, ways, &step)?;
    let ready = behind_move(cursor.alloc, &ways.log, step)?;
    told(cursor.alloc, set_aside(host, &ready, &ways.dir, &ways.tmp))
}

#[tactic(auto, using(crate::proofs::CanSetAside::one_making))]
fn make_aside(host: &mut MemHost, cursor: &mut Cursor, ways: &Ways) -> Result<Vec<u8>, Trouble> {
    let mode = if cursor.takes(b"mode") {
        Some(cursor.octal()?)
    } else {
        None
    };
    can_make(cursor.alloc, host, ways, mode)?;
    let ready = behind_making(cursor.alloc, ways, mode)?;
    told(cursor.alloc, set_aside(host, &ready, &ways.dir, &ways.tmp))
}

/// `set-aside LOG WAITING DIRECTORY move FROM TO`, or `set-aside LOG WAITING DIRECTORY make [mode O]`: sets the log aside, behind
/// the move of one member, or behind the making of the members' directory; `done`.
pub fn set_log_aside(host: &mut MemHost, cursor: &mut Cursor) -> Result<Vec<u8>, Trouble> {
    let ways = paths(cursor)?;
    if cursor.takes(b"move") {
        return move_aside(host, cursor, &ways);
    }
    if cursor.takes(b"make") {
        return make_aside(host, cursor, &ways);
    }
    Err(Trouble::Odd("nothing is moved or made before"))
}
