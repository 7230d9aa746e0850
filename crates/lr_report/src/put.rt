// Texts put whole, one part behind the other.
ghost use Rattle.std.specs.Prelude.{◌≤◌, ◌∷◌, [], OnErr, OnOk};
ghost use Rattle.std.specs.List.{concat};
ghost use Rattle.lr_host.specs.Told.{Rose};
ghost use Rattle.lr_report.specs.Puts.{Took, TookPart};

use lr_host::{Sink, SinkFault};

/// Puts all of a text.
#[tactic(auto, using(crate::proofs::PutLemmas::took_none, crate::proofs::PutLemmas::part_whole))]
pub fn put_one<K: Sink>(out: &mut K, text: &[u8]) -> Result<(), SinkFault>
    ensures whole { OnOk result (Took text.now (K.taken out.old) (K.taken out.new)) }
    ensures part { TookPart text.now (K.taken out.old) (K.taken out.new) }
    ensures cause { OnErr result (Rose (K.faults out.old) (K.faults out.new)) }
    ensures counts { K.faults out.old ≤ K.faults out.new }
{
    let mut at = 0;
    while at < text.len() {
        at += out.put(&text[at..])?;
    }
    Ok(())
}

#[tactic(auto, using(crate::proofs::PutLemmas::part_first))]
pub fn put_two<K: Sink>(out: &mut K, a: &[u8], b: &[u8]) -> Result<(), SinkFault>
    ensures whole { OnOk result (Took (concat (a.now ∷ b.now ∷ [])) (K.taken out.old) (K.taken out.new)) }
    ensures part { TookPart (concat (a.now ∷ b.now ∷ [])) (K.taken out.old) (K.taken out.new) }
    ensures cause { OnErr result (Rose (K.faults out.old) (K.faults out.new)) }
    ensures counts { K.faults out.old ≤ K.faults out.new }
{
    put_one(out, a)?;
    put_one(out, b)
}

#[tactic(auto, using(crate::proofs::PutLemmas::part_first))]
pub fn put_three<K: Sink>(out: &mut K, a: &[u8], b: &[u8], c: &[u8]) -> Result<(), SinkFault>
    ensures whole { OnOk result (Took (concat (a.now ∷ b.now ∷ c.now ∷ [])) (K.taken out.old) (K.taken out.new)) }
    ensures part { TookPart (concat (a.now ∷ b.now ∷ c.now ∷ [])) (K.taken out.old) (K.taken out.new) }
    ensures cause { OnErr result (Rose (K.faults out.old) (K.faults out.new)) }
    ensures counts { K.faults out.old ≤ K.faults out.new }
{
    put_one(out, a)?;
    put_two(out, b, c)
}

#[tactic(auto, using(crate::proofs::PutLemmas::part_first))]
pub fn put_four<K: Sink>(
    out: &mut K,
    a: &[u8],
    b: &[u8],
    c: &[u8],
    d: &[u8],
) -> Result<(), SinkFault>
    ensures whole { OnOk result (Took (concat (a.now ∷ b.now ∷ c.now ∷ d.now ∷ [])) (K.taken out.old) (K.taken out.new)) }
    ensures part { TookPart (concat (a.now ∷ b.now ∷ c.now ∷ d.now ∷ [])) (K.taken out.old) (K.taken out.new) }
    ensures cause { OnErr result (Rose (K.faults out.old) (K.faults out.new)) }
    ensures counts { K.faults out.old ≤ K.faults out.new }
{
    put_one(out, a)?;
    put_three(out, b, c, d)
}

#[tactic(auto, using(crate::proofs::PutLemmas::part_first))]
pub fn put_five<K: Sink>(
    out: &mut K,
    a: &[u8],
    b: &[u8],
    c: &[u8],
    d: &[u8],
    e: &[u8],
) -> Result<(), SinkFault>
    ensures whole { OnOk result (Took (concat (a.now ∷ b.now ∷ c.now ∷ d.now ∷ e.now ∷ [])) (K.taken out.old) (K.taken out.new)) }
    ensures part { TookPart (concat (a.now ∷ b.now ∷ c.now ∷ d.now ∷ e.now ∷ [])) (K.taken out.old) (K.taken out.new) }
    ensures cause { OnErr result (Rose (K.faults out.old) (K.faults out.new)) }
    ensures counts { K.faults out.old ≤ K.faults out.new }
{
    put_one(out, a)?;
    put_four(out, b, c, d, e)
}
