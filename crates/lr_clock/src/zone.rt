// The text of the zone that a call is to use.
ghost use Rattle.std.specs.Prelude.{◌≡◌, [], ◌∷◌, true, false, Ok, Err, IfOk, IfErr, OnErr};
ghost use Rattle.lr_rules.specs.declared.fault.Fault.{Fault};
ghost use Rattle.lr_host.specs.declared.entry.Entry.TheVariants as entry;
ghost use Rattle.lr_host.specs.Told.{Left, Are, Can, Onward, Rose};
ghost use Rattle.lr_host.specs.Looks.{Sees, IsFile};
ghost use Rattle.lr_due.specs.declared.tz.Zone.TheVariants as asked;
ghost use Rattle.lr_due.specs.declared.zone.ZoneText.TheVariants as text;
ghost use Rattle.lr_clock.specs.declared.clock.ClockStop.TheVariants as clock_stop;
ghost use Rattle.lr_clock.specs.declared.zone.ZoneFileStop.TheVariants as stop;
ghost use Rattle.lr_report.specs.Reported.{AreReported};
ghost use Rattle.lr_clock.specs.Zone.{IsNotFile, GivesBytes, ReadStopped, FileStopped, ShowsZone};
ghost use Rattle.lr_clock.specs.Zone.{ZoneStopped, file_stop, IsZoneText};
ghost use Rattle.lr_clock.specs.Zone.{IsFileFault, IsTextFault};

use crate::clock::ClockStop;
use lr_due::{Zone, ZoneText};
use lr_host::{CallFault, Host, Kind};
use lr_include::{ReadStop, read_text};
use lr_rules::{CallKind, Fault, Listed, Path, Text, ZoneWhy};
use std::alloc::Global;

// A file of more bytes is too big.
const LIMIT: usize = 1_048_576;

/// Why a file gives no text of a zone.
#[derive(Clone, Copy)]
pub enum ZoneFileStop {
    /// No regular file stands at its path.
    NotFile,
    /// It has more than 1,048,576 bytes.
    TooBig,
    /// The look at it failed.
    Look,
    /// A read of it failed.
    Read,
    Memory,
}

// Whether a regular file stands at the path. Links are followed.
#[tactic(auto, using(lr_host::proofs::Looking::sees, lr_host::proofs::Known::seen_can_read))]
fn is_file<H: Host>(host: &mut H, path: &Path) -> Result<bool, CallFault>
    ensures file { result ≡ Ok true → Left (Sees path.now IsFile) (H.told host.old) (H.told host.new) }
    ensures there { result ≡ Ok true → Can (H.told host.new) (entry.Reads path.now 0 []) }
    ensures other { result ≡ Ok false → Left (Sees path.now IsNotFile) (H.told host.old) (H.told host.new) }
    ensures failed { OnErr result (Left (Are []) (H.told host.old) (H.told host.new)) }
    ensures cause { OnErr result (Rose (H.counts host.old).faults (H.counts host.new).faults) }
    ensures counts { Onward (H.counts host.old) (H.counts host.new) }
{
    let Ok(look) = host.look(path, true) else {
        return Err(CallFault::Failed);
    };
    let Some(seen) = look else {
        return Ok(false);
    };
    match seen.kind {
        Kind::File => Ok(true),
        Kind::Dir => Ok(false),
        Kind::Other => Ok(false),
    }
}

// All bytes of the file.
#[tactic(auto, using(crate::proofs::Zoned::gives, crate::proofs::Zoned::read_too_big))]
fn bytes_of<H: Host>(alloc: Global, host: &mut H, path: &Path) -> Result<Listed<u8>, ZoneFileStop>
    requires file { Can (H.told host.old) (entry.Reads path.now 0 []) }
    ensures told { IfOk result (λ bytes. Left (GivesBytes path.now bytes) (H.told host.old) (H.told host.new)) }
    ensures stopped { IfErr result (λ why. Left (ReadStopped path.now why) (H.told host.old) (H.told host.new)) }
    ensures read { result ≡ Err stop.Read → Rose (H.counts host.old).faults (H.counts host.new).faults }
    ensures look { result ≡ Err stop.Look → ⊥ }
    ensures counts { Onward (H.counts host.old) (H.counts host.new) }
{
    match read_text(alloc, host, path, LIMIT + 1) {
        Ok(bytes) => {
            if bytes.len() > LIMIT {
                Err(ZoneFileStop::TooBig)
            } else {
                Ok(Listed::from_vec(bytes))
            }
        }
        Err(ReadStop::Call) => Err(ZoneFileStop::Read),
        Err(ReadStop::Memory) => Err(ZoneFileStop::Memory),
    }
}

// The text of the zone of a file.
#[tactic(auto, using(crate::proofs::Zoned::shows, crate::proofs::Zoned::stops))]
fn text_of_file<H: Host>(alloc: Global, host: &mut H, path: &Path) -> Result<ZoneText, ZoneFileStop>
    ensures told { IfOk result (λ t. Left (ShowsZone (asked.File path.now) t) (H.told host.old) (H.told host.new)) }
    ensures bytes { IfOk result (λ t. IsZoneText (asked.File path.now) t) }
    ensures stopped { IfErr result (λ why. Left (FileStopped path.now why) (H.told host.old) (H.told host.new)) }
    ensures look { result ≡ Err stop.Look → Rose (H.counts host.old).faults (H.counts host.new).faults }
    ensures read { result ≡ Err stop.Read → Rose (H.counts host.old).faults (H.counts host.new).faults }
    ensures counts { Onward (H.counts host.old) (H.counts host.new) }
{
    match is_file(host, path) {
        Ok(true) => match bytes_of(alloc, host, path) {
            Ok(bytes) => Ok(ZoneText::Bytes(bytes)),
            Err(stop) => Err(stop),
        },
        Ok(false) => Err(ZoneFileStop::NotFile),
        Err(_) => Err(ZoneFileStop::Look),
    }
}

fn stop_of(why: ZoneFileStop, path: Path) -> ClockStop
    ensures { result ≡ file_stop why path }
{
    match why {
        ZoneFileStop::NotFile => ClockStop::Fault(Fault::Zone(ZoneWhy::NotFile)),
        ZoneFileStop::TooBig => ClockStop::Fault(Fault::Zone(ZoneWhy::TooBig)),
        ZoneFileStop::Look => ClockStop::Fault(Fault::Call(CallKind::Look, path)),
        ZoneFileStop::Read => ClockStop::Fault(Fault::Call(CallKind::Read, path)),
        ZoneFileStop::Memory => ClockStop::Memory,
    }
}

// The same, with the fault that tells why there is none.
fn told_text<H: Host>(alloc: Global, host: &mut H, path: &Path) -> Result<ZoneText, ClockStop>
    ensures told { IfOk result (λ t. Left (ShowsZone (asked.File path.now) t) (H.told host.old) (H.told host.new)) }
    ensures bytes { IfOk result (λ t. IsZoneText (asked.File path.now) t) }
    ensures stopped { IfErr result (λ why. Left (ZoneStopped (asked.File path.now) why) (H.told host.old) (H.told host.new)) }
    ensures fault { (f : Fault) → result ≡ Err (clock_stop.Fault f)
        → IsFileFault path.now f × AreReported (f ∷ []) (H.counts host.old) (H.counts host.new) }
    ensures counts { Onward (H.counts host.old) (H.counts host.new) }
{
    let Ok(name) = path.copy(alloc) else {
        return Err(ClockStop::Memory);
    };
    match text_of_file(alloc, host, path) {
        Ok(text) => Ok(text),
        Err(why) => Err(stop_of(why, name)),
    }
}

fn text_of_rule(alloc: Global, rule: &Text) -> Result<ZoneText, ClockStop>
    ensures text { IfOk result (λ t. t ≡ text.Rule rule.now) }
    ensures memory { IfErr result (λ why. why ≡ clock_stop.Memory) }
{
    match rule.copy(alloc) {
        Ok(rule) => Ok(ZoneText::Rule(rule)),
        Err(_) => Err(ClockStop::Memory),
    }
}

/// The text of the zone: UTC and a rule as they are, or the bytes of the file. Links are followed.
///
/// Where it ends for want of memory, the file was seen as one, and maybe read, or nothing was called.
pub fn zone_text<H: Host>(alloc: Global, host: &mut H, zone: &Zone) -> Result<ZoneText, ClockStop>
    // What the calls showed, and what it has to do with the answer.
    ensures told { IfOk result (λ t. Left (ShowsZone zone.now t) (H.told host.old) (H.told host.new)) }
    ensures stopped { IfErr result (λ why. Left (ZoneStopped zone.now why) (H.told host.old) (H.told host.new)) }

    // Also where the host tells nothing.
    ensures text { IfOk result (λ t. IsZoneText zone.now t) }
    ensures fault { (f : Fault) → result ≡ Err (clock_stop.Fault f)
        → IsTextFault zone.now f × AreReported (f ∷ []) (H.counts host.old) (H.counts host.new) }
    ensures counts { Onward (H.counts host.old) (H.counts host.new) }
{
    match zone {
        Zone::Utc => Ok(ZoneText::Utc),
        Zone::Rule(rule) => text_of_rule(alloc, rule),
        Zone::File(path) => told_text(alloc, host, path),
    }
}
