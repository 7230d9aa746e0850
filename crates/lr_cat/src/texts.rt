// The files of a call, put out one behind another.
ghost use Rattle.std.specs.Prelude.{◌≡◌, ◌≤◌, ◌<◌, [], reverse, Some, None, length, OnOk, IfErr};
ghost use Rattle.lr_host.specs.declared.entry.Entry.TheVariants as entry;
ghost use Rattle.lr_host.specs.Told.{Can, Onward};
ghost use Rattle.lr_cat.specs.Texts.{TextBreaksOff, CanReadAll, HasCause, PassesTexts, ReadsAllOf, text_fault};
ghost use Rattle.lr_cat.specs.InternalTexts.{PassesOne, PassesSome};

use lr_host::{Host, Sink};
use lr_report::put_one;
use lr_rules::{CallKind, Fault, Path};

// More bytes of one file aren't read.
const LIMIT: u64 = 1_099_511_627_776;

/// Why a file wasn't read on.
#[derive(Clone, Copy)]
pub enum TextStop {
    /// A read failed.
    Read,
    /// It has more than 2^40 bytes.
    TooLong,
    /// The output failed.
    Out,
}

// Puts out a file, from its first byte to a read that gives nothing.
fn put_text<H: Host, K: Sink>(
    host: &mut H,
    path: &Path,
    buffer: &mut [u8],
    out: &mut K,
) -> Result<(), TextStop>
    requires room { 0 < length buffer.old }
    requires short { length buffer.old ≤ 65536 }
    requires file { Can (H.told host.old) (entry.Reads path.now 0 []) }
    ensures told { OnOk result (PassesOne path.now (H.told host.old) (H.told host.new) (K.taken out.old) (K.taken out.new)) }
    ensures stopped { IfErr result (λ why. PassesSome path.now why (H.told host.old) (H.told host.new) (K.taken out.old)
        (K.taken out.new)) }
    ensures cause { IfErr result (λ why. HasCause (text_fault why path.now) (H.counts host.old) (H.counts host.new)
        (K.faults out.old) (K.faults out.new)) }
    ensures room { length buffer.new ≡ length buffer.old }
    ensures counts { Onward (H.counts host.old) (H.counts host.new) }
    ensures puts { K.faults out.old ≤ K.faults out.new }
{
    let mut place = 0;
    while place <= LIMIT {
        let Ok(count) = host.read(path, false, place, buffer) else {
            return Err(TextStop::Read);
        };
        if count == 0 {
            return Ok(());
        }
        let Ok(()) = put_one(out, &buffer[..count]) else {
            return Err(TextStop::Out);
        };
        place += count as u64;
    }
    Err(TextStop::TooLong)
}

// The fault that tells why the file wasn't read on.
fn fault_of(why: TextStop, path: Path) -> Fault
    ensures { result ≡ text_fault why path }
{
    match why {
        TextStop::Read => Fault::Call(CallKind::Read, path),
        TextStop::TooLong => Fault::TooLong(path),
        TextStop::Out => Fault::Out,
    }
}

/// Puts out these files, the last of them first. Where one can't be read to its end, or the output fails, the others are left.
pub fn put_texts<H: Host, K: Sink>(
    host: &mut H,
    files: Vec<Path>,
    buffer: &mut [u8],
    out: &mut K,
) -> Result<(), Fault>
    requires room { 0 < length buffer.old }
    requires short { length buffer.old ≤ 65536 }
    requires files { CanReadAll (H.told host.old) files.items }
    ensures told { OnOk result (PassesTexts (ReadsAllOf (reverse files.items)) None (H.told host.old) (H.told host.new)
        (K.taken out.old) (K.taken out.new)) }
    ensures stopped { IfErr result (λ f. PassesTexts (TextBreaksOff (reverse files.items) f) (Some f) (H.told host.old)
        (H.told host.new) (K.taken out.old) (K.taken out.new)) }
    ensures cause { IfErr result (λ f. HasCause f (H.counts host.old) (H.counts host.new) (K.faults out.old) (K.faults out.new)) }
    ensures counts { Onward (H.counts host.old) (H.counts host.new) }
    ensures puts { K.faults out.old ≤ K.faults out.new }
{
    let mut files = files;
    while let Some(file) = files.pop() {
        match put_text(host, &file, buffer, out) {
            Ok(()) => {}
            Err(why) => return Err(fault_of(why, file)),
        }
    }
    Ok(())
}
