// A text that is appended in pieces.
ghost use Rattle.std.specs.Prelude.{◌≡◌, ◌≢◌, Err, [], IfOk, IfErr, option_to_list};
ghost use Rattle.lr_host.specs.declared.entry.Entry.TheVariants as entry;
ghost use Rattle.lr_host.specs.Told.{Left, Can, Onward};
ghost use Rattle.lr_plan.specs.declared.step.Step.TheVariants as step;
ghost use Rattle.lr_acts.specs.declared.stop.Stop.TheVariants as stop;
ghost use Rattle.lr_acts.specs.Making.{StepLeft, StopCause};

use crate::stop::Stop;
use lr_host::{Host, append_all};
use lr_plan::Mark;
use lr_rules::{CallKind, Fault, Path, Text};

/// Puts a text behind the bytes of a file.
pub fn append_text<H: Host>(host: &mut H, path: Path, text: Text) -> Result<Option<Mark>, Stop>
    requires { Can (H.told host.old) (entry.Appends path []) }
    ensures told { Left (StepLeft (step.Appends path text) result) (H.told host.old) (H.told host.new) }
    ensures marks { IfOk result (λ told. option_to_list told ≡ []) }
    ensures cause { IfErr result (λ why. StopCause why (H.counts host.old) (H.counts host.new) (H.told host.old)
        (H.told host.new)) }
    ensures memory { result ≢ Err stop.Memory }
    ensures counts { Onward (H.counts host.old) (H.counts host.new) }
{
    match append_all(host, &path, text.bytes()) {
        Ok(()) => Ok(None),
        Err(_) => Err(Stop::Fault(Fault::Call(CallKind::Append, path))),
    }
}
