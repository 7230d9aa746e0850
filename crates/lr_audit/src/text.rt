// The text of an audit.
ghost use Rattle.std.specs.Prelude.{◌≡◌, ◌∷◌, [], codes, decimal};
ghost use Rattle.std.specs.List.{concat, flat_map};
ghost use Rattle.lr_shown.specs.Puts.{Puts};
ghost use Rattle.lr_audit.specs.Text.{name_of, placed_line, line_text, gap_text, going_text, audit_text};

use itoa::Buffer;
use lr_audited::{Audit, Line, What, WhyGone};
use lr_host::{Sink, SinkFault};
use lr_report::{put_four, put_three, put_two};
use lr_rules::Path;

// The bytes of a path, none where there is none.
fn name_of(log: &Option<Path>) -> &[u8]
    ensures { result.now ≡ name_of log.now }
{
    match log {
        Some(path) => path.bytes(),
        None => b"",
    }
}

// The path, what stands there, and at which place.
fn put_place<K: Sink>(path: &Path, kind: &[u8], place: u64, out: &mut K) -> Result<(), SinkFault>
    ensures { Puts (concat (path.now ∷ kind.now ∷ decimal place ∷ [])) result (K.taken out.old) (K.taken out.new)
        (K.faults out.old) (K.faults out.new) }
{
    let mut digits = Buffer::new();
    let place = digits.format(place).as_bytes();
    put_three(out, path.bytes(), kind, place)
}

// Of which log.
fn put_owner<K: Sink>(log: &Option<Path>, out: &mut K) -> Result<(), SinkFault>
    ensures { Puts (concat (codes " of " ∷ name_of log.now ∷ codes "\n" ∷ [])) result (K.taken out.old) (K.taken out.new)
        (K.faults out.old) (K.faults out.new) }
{
    put_three(out, b" of ", name_of(log), b"\n")
}

// The line of a file at a place of a log.
fn put_placed<K: Sink>(
    path: &Path,
    kind: &[u8],
    place: u64,
    log: &Option<Path>,
    out: &mut K,
) -> Result<(), SinkFault>
    ensures { Puts (placed_line path.now kind.now place log.now) result (K.taken out.old) (K.taken out.new) (K.faults out.old)
        (K.faults out.new) }
{
    put_place(path, kind, place, out)?;
    put_owner(log, out)
}

fn put_line<K: Sink>(line: &Line, out: &mut K) -> Result<(), SinkFault>
    ensures { Puts (line_text line.now) result (K.taken out.old) (K.taken out.new) (K.faults out.old) (K.faults out.new) }
{
    let path = &line.path;
    match line.what {
        What::Log => put_two(out, path.bytes(), b": log\n"),
        What::Member(place) => put_placed(path, b": member ", place, &line.log, out),
        What::Leftover(place) => put_placed(path, b": leftover ", place, &line.log, out),
        What::Part => put_four(out, path.bytes(), b": part of ", name_of(&line.log), b"\n"),
        What::Stranger => put_two(out, path.bytes(), b": stranger\n"),
    }
}

fn put_lines<K: Sink>(lines: &[Line], out: &mut K) -> Result<(), SinkFault>
    ensures { Puts (flat_map line_text lines.now) result (K.taken out.old) (K.taken out.new) (K.faults out.old) (K.faults out.new) }
{
    for line in lines {
        put_line(line, out)?;
    }
    Ok(())
}

fn put_gap<K: Sink>(gap: &(Path, u32), out: &mut K) -> Result<(), SinkFault>
    ensures { Puts (gap_text gap.now) result (K.taken out.old) (K.taken out.new) (K.faults out.old) (K.faults out.new) }
{
    let mut digits = Buffer::new();
    let place = digits.format(gap.1).as_bytes();
    put_four(out, gap.0.bytes(), b": gap at ", place, b"\n")
}

fn put_gaps<K: Sink>(gaps: &[(Path, u32)], out: &mut K) -> Result<(), SinkFault>
    ensures { Puts (flat_map gap_text gaps.now) result (K.taken out.old) (K.taken out.new) (K.faults out.old) (K.faults out.new) }
{
    for gap in gaps {
        put_gap(gap, out)?;
    }
    Ok(())
}

fn put_going<K: Sink>(going: &(Path, WhyGone), out: &mut K) -> Result<(), SinkFault>
    ensures { Puts (going_text going.now) result (K.taken out.old) (K.taken out.new) (K.faults out.old) (K.faults out.new) }
{
    match going.1 {
        WhyGone::Count => put_two(out, going.0.bytes(), b": next run removes, count\n"),
        WhyGone::Age => put_two(out, going.0.bytes(), b": next run removes, age\n"),
    }
}

fn put_removed<K: Sink>(removed: &[(Path, WhyGone)], out: &mut K) -> Result<(), SinkFault>
    ensures { Puts (flat_map going_text removed.now) result (K.taken out.old) (K.taken out.new) (K.faults out.old)
        (K.faults out.new) }
{
    for going in removed {
        put_going(going, out)?;
    }
    Ok(())
}

// The text of the lines.
fn put_all_lines<K: Sink>(audit: &Audit, out: &mut K) -> Result<(), SinkFault>
    ensures { Puts (flat_map line_text audit.now.lines) result (K.taken out.old) (K.taken out.new) (K.faults out.old)
        (K.faults out.new) }
{
    put_lines(audit.lines.as_slice(), out)
}

// The text of the gaps.
fn put_all_gaps<K: Sink>(audit: &Audit, out: &mut K) -> Result<(), SinkFault>
    ensures { Puts (flat_map gap_text audit.now.gaps) result (K.taken out.old) (K.taken out.new) (K.faults out.old)
        (K.faults out.new) }
{
    put_gaps(audit.gaps.as_slice(), out)
}

// The text of what goes.
fn put_all_removed<K: Sink>(audit: &Audit, out: &mut K) -> Result<(), SinkFault>
    ensures { Puts (flat_map going_text audit.now.removed) result (K.taken out.old) (K.taken out.new) (K.faults out.old)
        (K.faults out.new) }
{
    put_removed(audit.removed.as_slice(), out)
}

/// Puts what each file is, then the gaps, then what goes.
pub fn put_audit<K: Sink>(audit: &Audit, out: &mut K) -> Result<(), SinkFault>
    ensures { Puts (audit_text audit.now) result (K.taken out.old) (K.taken out.new) (K.faults out.old) (K.faults out.new) }
{
    put_all_lines(audit, out)?;
    put_all_gaps(audit, out)?;
    put_all_removed(audit, out)
}
