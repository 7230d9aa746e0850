// Texts, and lines of one path or two.
ghost use Rattle.lr_shown.specs.Lines.{path_line, pair_line};
ghost use Rattle.lr_shown.specs.Puts.{Puts};

use lr_host::{Sink, SinkFault};
use lr_report::{put_five, put_one, put_three};
use lr_rules::Path;

/// Puts all of a text.
pub fn put_text<K: Sink>(text: &[u8], out: &mut K) -> Result<(), SinkFault>
    ensures { Puts text.now result (K.taken out.old) (K.taken out.new) (K.faults out.old) (K.faults out.new) }
{
    put_one(out, text)
}

/// Puts what is done, and the path.
pub fn put_path<K: Sink>(does: &[u8], path: &Path, out: &mut K) -> Result<(), SinkFault>
    ensures { Puts (path_line does.now path.now) result (K.taken out.old) (K.taken out.new) (K.faults out.old) (K.faults out.new) }
{
    put_three(out, does, path.bytes(), b"\n")
}

/// Puts what is done, and both paths.
pub fn put_pair<K: Sink>(does: &[u8], from: &Path, to: &Path, out: &mut K) -> Result<(), SinkFault>
    ensures { Puts (pair_line does.now from.now to.now) result (K.taken out.old) (K.taken out.new) (K.faults out.old)
        (K.faults out.new) }
{
    put_five(out, does, from.bytes(), b" ", to.bytes(), b"\n")
}
