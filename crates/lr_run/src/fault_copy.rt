// A copy of a fault. Each kind that holds memory has a function of its own, as a match with many ways out is dear to check.
ghost use Rattle.std.specs.Prelude.{◌≡◌, IfOk};
ghost use Rattle.lr_rules.specs.declared.fault.Fault.TheVariants as fault;

use lr_rules::{CallKind, ConfKind, Ended, Fault, Memory, Path, Phase, Text};
use std::alloc::Global;

fn conf(alloc: Global, file: &Path, line: u32, kind: ConfKind) -> Result<Fault, Memory>
    ensures { IfOk result (λ copy. copy ≡ fault.Conf file.now line kind) }
{
    let file = file.copy(alloc)?;
    Ok(Fault::Conf { file, line, kind })
}

fn overlap(alloc: Global, first: &Path, other: &Path) -> Result<Fault, Memory>
    ensures { IfOk result (λ copy. copy ≡ fault.Overlap first.now other.now) }
{
    let first = first.copy(alloc)?;
    let other = other.copy(alloc)?;
    Ok(Fault::Overlap(first, other))
}

fn call(alloc: Global, kind: CallKind, path: &Path) -> Result<Fault, Memory>
    ensures { IfOk result (λ copy. copy ≡ fault.Call kind path.now) }
{
    Ok(Fault::Call(kind, path.copy(alloc)?))
}

fn script(alloc: Global, phase: Phase, on: &Text, ended: Ended) -> Result<Fault, Memory>
    ensures { IfOk result (λ copy. copy ≡ fault.Script phase on.now ended) }
{
    Ok(Fault::Script(phase, on.copy(alloc)?, ended))
}

fn missing(alloc: Global, word: &Text) -> Result<Fault, Memory>
    ensures { IfOk result (λ copy. copy ≡ fault.Missing word.now) }
{
    Ok(Fault::Missing(word.copy(alloc)?))
}

fn not_file(alloc: Global, path: &Path) -> Result<Fault, Memory>
    ensures { IfOk result (λ copy. copy ≡ fault.NotFile path.now) }
{
    Ok(Fault::NotFile(path.copy(alloc)?))
}

fn no_dir(alloc: Global, path: &Path) -> Result<Fault, Memory>
    ensures { IfOk result (λ copy. copy ≡ fault.NoDir path.now) }
{
    Ok(Fault::NoDir(path.copy(alloc)?))
}

fn duplicate(alloc: Global, path: &Path) -> Result<Fault, Memory>
    ensures { IfOk result (λ copy. copy ≡ fault.Duplicate path.now) }
{
    Ok(Fault::Duplicate(path.copy(alloc)?))
}

fn taken(alloc: Global, path: &Path) -> Result<Fault, Memory>
    ensures { IfOk result (λ copy. copy ≡ fault.Taken path.now) }
{
    Ok(Fault::Taken(path.copy(alloc)?))
}

fn unfinished(alloc: Global, path: &Path) -> Result<Fault, Memory>
    ensures { IfOk result (λ copy. copy ≡ fault.Unfinished path.now) }
{
    Ok(Fault::Unfinished(path.copy(alloc)?))
}

fn too_high(alloc: Global, path: &Path) -> Result<Fault, Memory>
    ensures { IfOk result (λ copy. copy ≡ fault.TooHigh path.now) }
{
    Ok(Fault::TooHigh(path.copy(alloc)?))
}

fn long_name(alloc: Global, word: &Text) -> Result<Fault, Memory>
    ensures { IfOk result (λ copy. copy ≡ fault.LongName word.now) }
{
    Ok(Fault::LongName(word.copy(alloc)?))
}

fn too_many(alloc: Global, word: &Text) -> Result<Fault, Memory>
    ensures { IfOk result (λ copy. copy ≡ fault.TooMany word.now) }
{
    Ok(Fault::TooMany(word.copy(alloc)?))
}

fn too_long(alloc: Global, path: &Path) -> Result<Fault, Memory>
    ensures { IfOk result (λ copy. copy ≡ fault.TooLong path.now) }
{
    Ok(Fault::TooLong(path.copy(alloc)?))
}

/// An equal fault.
pub fn copy_fault(alloc: Global, from: &Fault) -> Result<Fault, Memory>
    ensures { IfOk result (λ copy. copy ≡ from.now) }
{
    match from {
        Fault::Conf { file, line, kind } => conf(alloc, file, *line, *kind),
        Fault::Clock => Ok(Fault::Clock),
        Fault::Zone(why) => Ok(Fault::Zone(*why)),
        Fault::State { line, kind } => Ok(Fault::State {
            line: *line,
            kind: *kind,
        }),
        Fault::Missing(word) => missing(alloc, word),
        Fault::NotFile(path) => not_file(alloc, path),
        Fault::NoDir(path) => no_dir(alloc, path),
        Fault::Duplicate(path) => duplicate(alloc, path),
        Fault::Overlap(first, other) => overlap(alloc, first, other),
        Fault::Taken(path) => taken(alloc, path),
        Fault::Unfinished(path) => unfinished(alloc, path),
        Fault::TooHigh(path) => too_high(alloc, path),
        Fault::LongName(word) => long_name(alloc, word),
        Fault::TooMany(word) => too_many(alloc, word),
        Fault::TooLong(path) => too_long(alloc, path),
        Fault::Call(kind, path) => call(alloc, *kind, path),
        Fault::Script(phase, on, ended) => script(alloc, *phase, on, *ended),
        Fault::Out => Ok(Fault::Out),
    }
}
