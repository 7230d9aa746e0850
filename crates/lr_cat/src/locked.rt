// The reading of a log's history under the lock.
ghost use Rattle.std.specs.Prelude.{◌≡◌, ◌≢◌, ◌≤◌, ◌<◌, true, false, Err, IfErr, IfOk, length};
ghost use Rattle.lr_rules.specs.declared.fault.Fault.TheVariants as fault;
ghost use Rattle.lr_rules.specs.Limits.{is_format, or_none};
ghost use Rattle.lr_rules.specs.Path.{parent_of};
ghost use Rattle.lr_host.specs.declared.entry.Entry.TheVariants as entry;
ghost use Rattle.lr_host.specs.Looking.{AreSights};
ghost use Rattle.lr_host.specs.Told.{Left, Can, NoneFell, Onward, WhereTold};
ghost use Rattle.lr_host.specs.World.{world};
ghost use Rattle.lr_family.specs.Directory.{dir_fault_of};
ghost use Rattle.lr_cat.specs.Cats.{Cats, StopsSo};
ghost use Rattle.lr_cat.specs.declared.stop.CatStop.TheVariants as stop;
ghost use Rattle.lr_cat.specs.InternalCats.{EndsWork, Goes, GoesShort};
ghost use Rattle.lr_cat.specs.Saw.{Works, aside_of};
ghost use Rattle.lr_cat.specs.Stops.{CameTo, StopCause};

use crate::seeing::{Files, see};
use crate::stop::CatStop;
use crate::texts::put_texts;
use crate::words::Wanted;
use lr_family::{DirStop, Family, dir_fault, look_for_dir};
use lr_host::{Host, Sink};
use lr_rules::{CallKind, Clock, Fault, Memory, Path, Rules, aside_path};
use std::alloc::Global;

// Looks at what stands, and puts it out; whether the log waits that is set aside.
fn see_and_put<H: Host, K: Sink>(
    alloc: Global,
    host: &mut H,
    family: &Family,
    aside: Option<Path>,
    log: Path,
    buffer: &mut [u8],
    out: &mut K,
) -> Result<bool, CatStop>
    requires format { or_none is_format family.now.naming.dated ≡ true }
    requires aside { aside ≡ aside_of family.now.naming.aside log }
    requires room { 0 < length buffer.old }
    requires short { length buffer.old ≤ 65536 }
    ensures came { CameTo (λ how texts ts. Works family.now.naming log how texts ts) result (H.told host.old) (H.told host.new)
        (K.taken out.old) (K.taken out.new) }
    ensures sights { Left AreSights (H.told host.old) (H.told host.new) }
    ensures held { result ≢ Err CatStop.Held }
    ensures cause { IfErr result (λ why. StopCause why (H.counts host.old) (H.counts host.new) (K.faults out.old)
        (K.faults out.new)) }
    ensures counts { Onward (H.counts host.old) (H.counts host.new) }
    ensures puts { K.faults out.old ≤ K.faults out.new }
{
    match see(alloc, host, family, aside, log) {
        Ok(files) => {
            let Files { paths, waits } = files;
            match put_texts(host, paths, buffer, out) {
                Ok(()) => Ok(waits),
                Err(fault) => Err(CatStop::Fault(fault)),
            }
        }
        Err(why) => Err(why),
    }
}

// The same, and the end of the run.
fn put_to_end<H: Host, K: Sink>(
    alloc: Global,
    host: &mut H,
    family: &Family,
    aside: Option<Path>,
    log: Path,
    buffer: &mut [u8],
    out: &mut K,
) -> Result<bool, CatStop>
    requires format { or_none is_format family.now.naming.dated ≡ true }
    requires aside { aside ≡ aside_of family.now.naming.aside log }
    requires room { 0 < length buffer.old }
    requires short { length buffer.old ≤ 65536 }
    requires on { WhereTold (H.told host.old) (λ p. (world p).running ≡ true) }
    ensures came { CameTo (λ how texts ts. EndsWork (Works family.now.naming log how texts) ts) result (H.told host.old)
        (H.told host.new) (K.taken out.old) (K.taken out.new) }
    ensures short { result ≡ Err CatStop.Memory → Left (EndsWork AreSights) (H.told host.old) (H.told host.new) }
    ensures held { result ≢ Err CatStop.Held }
    ensures cause { IfErr result (λ why. StopCause why (H.counts host.old) (H.counts host.new) (K.faults out.old)
        (K.faults out.new)) }
    ensures lock { (H.counts host.new).locked ≡ false }
    ensures counts { NoneFell (H.counts host.old) (H.counts host.new) }
    ensures puts { K.faults out.old ≤ K.faults out.new }
{
    let done = see_and_put(alloc, host, family, aside, log, buffer, out);
    host.end();
    done
}

/// The paths that a call owns: those that its faults tell.
#[derive(Drop)]
pub struct Names {
    pub dir: Path,
    pub state: Path,
    /// Where the log waits that is set aside, if its way does that.
    pub aside: Option<Path>,
    pub log: Path,
}

// Where the log waits that is set aside, if its way does that.
fn aside_of(alloc: Global, is_aside: bool, log: &Path) -> Result<Option<Path>, Memory>
    requires { length log.now ≤ 2048 }
    ensures { IfOk result (λ aside. aside ≡ aside_of is_aside log.now) }
{
    if is_aside {
        let path = aside_path(alloc, log)?;
        Ok(Some(path))
    } else {
        Ok(None)
    }
}

/// The paths that faults of a call may tell.
pub fn names_of(alloc: Global, wanted: &Wanted, is_aside: bool) -> Result<Names, Memory>
    requires { length wanted.now.log ≤ 2048 }
    ensures dir { IfOk result (λ names. names.dir ≡ parent_of wanted.now.state) }
    ensures state { IfOk result (λ names. names.state ≡ wanted.now.state) }
    ensures aside { IfOk result (λ names. names.aside ≡ aside_of is_aside wanted.now.log) }
    ensures log { IfOk result (λ names. names.log ≡ wanted.now.log) }
{
    let dir = wanted.state.parent(alloc)?;
    let state = wanted.state.copy(alloc)?;
    let aside = aside_of(alloc, is_aside, &wanted.log)?;
    let log = wanted.log.copy(alloc)?;
    Ok(Names {
        dir,
        state,
        aside,
        log,
    })
}

// Begins the run, and where it began, puts out what stands and ends it.
fn begin_to_end<H: Host, K: Sink>(
    alloc: Global,
    host: &mut H,
    rules: &Rules,
    wanted: &Wanted,
    clock: &Clock,
    family: &Family,
    names: Names,
    buffer: &mut [u8],
    out: &mut K,
) -> Result<bool, CatStop>
    requires format { or_none is_format family.now.naming.dated ≡ true }
    requires there { Can (H.told host.old) (entry.Starts wanted.now.state clock.now.now rules.now) }
    requires state { names.state ≡ wanted.now.state }
    requires aside { names.aside ≡ aside_of family.now.naming.aside wanted.now.log }
    requires log { names.log ≡ wanted.now.log }
    requires room { 0 < length buffer.old }
    requires short { length buffer.old ≤ 65536 }
    ensures came { CameTo (λ how texts ts. Goes wanted.now clock.entry.now rules.now family.now.naming how texts ts) result
        (H.told host.old) (H.told host.new) (K.taken out.old) (K.taken out.new) }
    ensures stopped { IfErr result (λ why. Left (GoesShort wanted.now clock.entry.now rules.now why) (H.told host.old)
        (H.told host.new)) }
    ensures cause { IfErr result (λ why. StopCause why (H.counts host.old) (H.counts host.new) (K.faults out.old)
        (K.faults out.new)) }
    ensures counts { Onward (H.counts host.old) (H.counts host.new) }
    ensures puts { K.faults out.old ≤ K.faults out.new }
{
    let Names {
        state,
        aside,
        log,
        ..
    } = names;
    match host.begin(&wanted.state, &clock.now, rules) {
        Ok(true) => put_to_end(alloc, host, family, aside, log, buffer, out),
        Ok(false) => Err(CatStop::Held),
        Err(_) => Err(CatStop::Fault(Fault::Call(CallKind::Begin, state))),
    }
}

// The state's directory isn't there.
fn no_dir(names: Names) -> CatStop
    ensures { result ≡ stop.Fault (fault.NoDir names.dir) }
{
    let Names { dir, .. } = names;
    CatStop::Fault(Fault::NoDir(dir))
}

// The look at it failed, or saw something else.
fn not_dir(why: DirStop, names: Names) -> CatStop
    ensures { result ≡ stop.Fault (dir_fault_of why names.dir) }
{
    let Names { dir, .. } = names;
    CatStop::Fault(dir_fault(why, dir))
}

/// Looks for the state's directory, and reads what stands of the log's history under the lock.
pub fn put_locked<H: Host, K: Sink>(
    alloc: Global,
    host: &mut H,
    rules: &Rules,
    wanted: &Wanted,
    clock: &Clock,
    family: &Family,
    names: Names,
    buffer: &mut [u8],
    out: &mut K,
) -> Result<bool, CatStop>
    requires format { or_none is_format family.now.naming.dated ≡ true }
    requires dir { names.dir ≡ parent_of wanted.now.state }
    requires state { names.state ≡ wanted.now.state }
    requires aside { names.aside ≡ aside_of family.now.naming.aside wanted.now.log }
    requires log { names.log ≡ wanted.now.log }
    requires room { 0 < length buffer.old }
    requires short { length buffer.old ≤ 65536 }
    ensures came { CameTo (λ how texts ts. Cats wanted.now clock.entry.now rules.now family.now.naming how texts ts) result
        (H.told host.old) (H.told host.new) (K.taken out.old) (K.taken out.new) }
    ensures stopped { IfErr result (λ why. Left (StopsSo wanted.now clock.entry.now rules.now why) (H.told host.old)
        (H.told host.new)) }
    ensures cause { IfErr result (λ why. StopCause why (H.counts host.old) (H.counts host.new) (K.faults out.old)
        (K.faults out.new)) }
    ensures counts { Onward (H.counts host.old) (H.counts host.new) }
    ensures puts { K.faults out.old ≤ K.faults out.new }
{
    match look_for_dir(host, &names.dir) {
        Ok(true) => begin_to_end(
            alloc, host, rules, wanted, clock, family, names, buffer, out,
        ),
        Ok(false) => Err(no_dir(names)),
        Err(why) => Err(not_dir(why, names)),
    }
}
