// The audit of files, by what the looks at the logs gave.
ghost use Rattle.std.specs.Prelude.{◌≡◌, true, IfOk};
ghost use Rattle.lr_plan.specs.Planned.{CanPlanAll};
ghost use Rattle.lr_audited.specs.Audits.{going_of, IsAudit};
ghost use Rattle.lr_audited.specs.Lines.{known_lines, AreLines};

use crate::gaps::gaps_of;
use crate::knowing::{known_of, lines_for};
use crate::line::{Audit, Line, WhyGone};
use crate::lines::lines_of;
use crate::removed::removed_by;
use lr_plan::Looks;
use lr_planning::plan;
use lr_rules::{Clock, Listed, Memory, Path, Rules, Settings};
use lr_state::State;
use std::alloc::Global;

// What a forced run removes that knows nothing of earlier ones.
fn going_of(
    alloc: Global,
    rules: &Rules,
    looks: &Looks,
    clock: &Clock,
    settings: &Settings,
) -> Result<Listed<(Path, WhyGone)>, Memory>
    requires force { settings.now.force ≡ true }
    requires looks { CanPlanAll rules.now.sets looks.now.sets }
    ensures { IfOk result (λ going. going ≡ going_of rules.now.sets looks.now.sets clock.entry.now settings.now.mailer) }
{
    let state = State::new(alloc);
    let plan = plan(alloc, rules, looks, &state, clock, settings)?;
    removed_by(alloc, clock, plan.sets.as_slice())
}

// The line of each of these files.
fn lines_by(
    alloc: Global,
    rules: &Rules,
    looks: &Looks,
    files: &[Path],
) -> Result<Listed<Line>, Memory>
    requires { CanPlanAll rules.now.sets looks.now.sets }
    ensures { IfOk result (AreLines (known_lines rules.now.sets looks.now) files.now) }
{
    let lines = lines_of(alloc, rules, looks)?;
    let known = known_of(alloc, lines)?;
    lines_for(alloc, &known, files)
}

/// Tells of each of these files what it is by these looks at the logs, which places of the logs' members are free, and what
/// the next run by `--force` removes.
pub fn audit_by(
    alloc: Global,
    rules: &Rules,
    looks: &Looks,
    clock: &Clock,
    settings: &Settings,
    files: &[Path],
) -> Result<Audit, Memory>
    requires force { settings.now.force ≡ true }
    requires looks { CanPlanAll rules.now.sets looks.now.sets }
    ensures { IfOk result (IsAudit rules.now.sets looks.now clock.entry.now settings.now.mailer files.now) }
{
    let lines = lines_by(alloc, rules, looks, files)?;
    let gaps = gaps_of(alloc, looks.sets.as_slice())?;
    let removed = going_of(alloc, rules, looks, clock, settings)?;
    Ok(Audit {
        lines,
        gaps,
        removed,
    })
}
