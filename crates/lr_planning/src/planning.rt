// What makes the plan.
ghost use Rattle.std.specs.Prelude.{◌≡◌, ◌≤◌, ◌++◌, ◌∷◌, [], None, length, OnOk, IfOk, IfErr};
ghost use Rattle.lr_rules.specs.declared.rule.Rule.{Rule};
ghost use Rattle.lr_rules.specs.Limits.{IsCount};
ghost use Rattle.lr_plan.specs.declared.looks.LogLook.{LogLook};
ghost use Rattle.lr_plan.specs.Asked.{asking};
ghost use Rattle.lr_planning.specs.Hindered.{prepare_fault};
ghost use Rattle.lr_plan.specs.Planned.{decision, decisions_of, plans_of, log_plans, log_faults, set_plan, where_due};
ghost use Rattle.lr_plan.specs.Planned.{all_decisions, all_plans, all_faults, plan_of, make_of, make_for, dir_of, stand_for};
ghost use Rattle.lr_plan.specs.Planned.{with_stand, with_log, first_path, aside_hinders, unfinished, or_else};
ghost use Rattle.lr_plan.specs.Planned.{none_hinders, due_faults};
ghost use Rattle.lr_plan.specs.Planned.{standing, plan_with, CanPlan, CanPlanSet, CanPlanAll};
ghost use Rattle.lr_chain.specs.Ready.{with_dir};
ghost use Rattle.lr_scripts.specs.Commands.{spaced};
ghost use Rattle.lr_chain.specs.Hindrances.{what_hinders, IsHindered};
ghost use Rattle.lr_chain.specs.Prepared.{ready_of};

use crate::aside::{aside_hinders, takes_up};
use crate::commands::{outer_scripts, shared_scripts};
use crate::directory::{empty_stand, makes_dir};
use crate::log_plan::add_plan;
use lr_chain::{PrepareStop, Ready, prepare};
use lr_due::{Due, due};
use lr_family::Stand;
use lr_host::Seen;
use lr_plan::{LogLook, LogPlan, Looks, Plan, SetLooks, SetPlan};
use lr_rules::{
    Clock, Fault, Listed, Make, Memory, Moment, Path, Rule, Rules, Settings, aside_path,
};
use lr_scripts::spaced;
use lr_state::State;
use std::alloc::Global;

// Whether the log is due.
fn decide(rule: &Rule, look: &LogLook, state: &State, now: &Moment, force: bool) -> Due
    ensures { result ≡ decision state.now now.now force rule.now look.now }
{
    let last = state.get(look.path.bytes());
    due(rule, &look.seen, last, now, force)
}

// What hinders a rotation that can't be prepared.
fn hindrance(stop: PrepareStop) -> Result<Fault, Memory>
    ensures { result ≡ prepare_fault stop }
{
    match stop {
        PrepareStop::Taken(path) => Ok(Fault::Taken(path)),
        PrepareStop::TooHigh(path) => Ok(Fault::TooHigh(path)),
        PrepareStop::NoDir(path) => Ok(Fault::NoDir(path)),
        PrepareStop::Memory => Err(Memory),
    }
}

// The same of a log that doesn't stay.
fn made_for(rule: &Rule, look: &LogLook) -> Make
    ensures { result ≡ make_for rule.now look.now }
{
    if takes_up(rule, look) {
        Make::No
    } else {
        made_with(rule.create, &look.seen)
    }
}

// Whether the log is made anew, and with which mode: the one that is given, else the one that was seen.
fn made_with(create: Make, seen: &Seen) -> Make
    ensures { result ≡ make_of create seen.now }
{
    match create {
        Make::No => Make::No,
        Make::Yes(None) => Make::Yes(seen.mode),
        Make::Yes(Some(mode)) => Make::Yes(Some(mode)),
    }
}

// Tells of a log that is taken up.
fn add_unfinished(
    alloc: Global,
    rule: &Rule,
    look: &LogLook,
    faults: &mut Vec<Fault>,
) -> Result<(), Memory>
    ensures { OnOk result (faults.new.items ≡ faults.old.items ++ unfinished rule.now.way look.now.path look.now.tmp) }
{
    if takes_up(rule, look) {
        faults.push(Fault::Unfinished(look.path.copy(alloc)?))?;
    }
    Ok(())
}

// Adds the plan of a log whose rotation is ready, and that it is taken up, if it is; or that another thing stands where the log
// is set aside to.
fn add_ready(
    alloc: Global,
    rule: &Rule,
    mailer: &Path,
    look: &LogLook,
    stand: &Stand,
    ready: Ready,
    plans: &mut Vec<LogPlan>,
    faults: &mut Vec<Fault>,
) -> Result<(), Memory>
    requires stand { stand.now ≡ stand_for rule.now look.now }
    requires short { length ready.target ≤ 4081 }
    requires log { length look.now.path ≤ 2048 }
    ensures plans { OnOk result (plans.new.items ≡ plans.old.items
        ++ none_hinders (aside_hinders rule.now.way look.now.path look.now.tmp)
        (plan_with mailer.now rule.now (standing rule.now look.now)
        (with_dir (dir_of rule.now look.now) (with_log (first_path rule.now.way look.now.path look.now.tmp) ready)) ∷ [])) }
    ensures faults { OnOk result (faults.new.items ≡ faults.old.items
        ++ or_else (aside_hinders rule.now.way look.now.path look.now.tmp) (unfinished rule.now.way look.now.path look.now.tmp)) }
{
    if aside_hinders(rule, look) {
        drop(ready);
        faults.push(Fault::NotFile(aside_path(alloc, &look.path)?))?;
        return Ok(());
    }
    if add_unfinished(alloc, rule, look, faults).is_err() {
        drop(ready);
        return Err(Memory);
    }
    add_plan(alloc, rule, mailer, look, stand, ready, plans)
}

// Makes the rotation of a log ready, where this stands of its family.
fn make_ready(
    alloc: Global,
    rule: &Rule,
    clock: &Clock,
    look: &LogLook,
    stand: &Stand,
) -> Result<Ready, PrepareStop>
    requires count { IsCount rule.now.count }
    requires look { CanPlan (with_stand stand.now look.now) }
    ensures ready { IfOk result (λ ready. ready ≡ ready_of look.now.family.log look.now.family.naming rule.now.count rule.now.maxage
        clock.entry.now (make_for rule.now look.now) stand.now.members) }
    ensures short { IfOk result (λ ready. length ready.target ≤ 4081) }
    ensures free { OnOk result (what_hinders look.now.family.naming rule.now.count clock.entry.now stand.now ≡ []) }
    ensures hindered { IfErr result (IsHindered (what_hinders look.now.family.naming rule.now.count clock.entry.now stand.now)) }
{
    let anew = made_for(rule, look);
    prepare(
        alloc,
        &look.family,
        stand,
        rule.count,
        rule.maxage,
        clock,
        anew,
    )
}

// Adds the plan of a log that is due, or what hinders it, where this stands of its family as its rotation begins.
fn add_standing(
    alloc: Global,
    rule: &Rule,
    mailer: &Path,
    clock: &Clock,
    look: &LogLook,
    stand: &Stand,
    plans: &mut Vec<LogPlan>,
    faults: &mut Vec<Fault>,
) -> Result<(), Memory>
    requires count { IsCount rule.now.count }
    requires look { CanPlan look.now }
    requires stand { stand.now ≡ stand_for rule.now look.now }
    ensures plans { OnOk result (plans.new.items ≡ plans.old.items ++ plans_of clock.entry.now mailer.now rule.now look.now) }
    ensures faults { OnOk result (faults.new.items ≡ faults.old.items ++ due_faults clock.entry.now rule.now look.now) }
{
    match make_ready(alloc, rule, clock, look, stand) {
        Ok(ready) => add_ready(alloc, rule, mailer, look, stand, ready, plans, faults),
        Err(stop) => {
            faults.push(hindrance(stop)?)?;
            Ok(())
        }
    }
}

// Adds the plan of a log that is due, or what hinders it.
fn add_due(
    alloc: Global,
    rule: &Rule,
    mailer: &Path,
    clock: &Clock,
    look: &LogLook,
    plans: &mut Vec<LogPlan>,
    faults: &mut Vec<Fault>,
) -> Result<(), Memory>
    requires count { IsCount rule.now.count }
    requires look { CanPlan look.now }
    ensures plans { OnOk result (plans.new.items ≡ plans.old.items ++ plans_of clock.entry.now mailer.now rule.now look.now) }
    ensures faults { OnOk result (faults.new.items ≡ faults.old.items ++ due_faults clock.entry.now rule.now look.now) }
{
    if makes_dir(rule, look) {
        let stand = empty_stand(alloc);
        add_standing(alloc, rule, mailer, clock, look, &stand, plans, faults)
    } else {
        add_standing(alloc, rule, mailer, clock, look, &look.stand, plans, faults)
    }
}

// Adds what is decided of a log, and its plan where it is due, or what hinders it.
fn add_look(
    alloc: Global,
    rule: &Rule,
    mailer: &Path,
    clock: &Clock,
    look: &LogLook,
    decided: Due,
    plans: &mut Vec<LogPlan>,
    faults: &mut Vec<Fault>,
) -> Result<(), Memory>
    requires count { IsCount rule.now.count }
    requires look { CanPlan look.now }
    ensures plans { OnOk result (plans.new.items ≡ plans.old.items
        ++ where_due decided (plans_of clock.entry.now mailer.now rule.now look.now)) }
    ensures faults { OnOk result (faults.new.items ≡ faults.old.items
        ++ where_due decided (due_faults clock.entry.now rule.now look.now)) }
{
    match decided {
        Due::Yes(_) => add_due(alloc, rule, mailer, clock, look, plans, faults),
        Due::No(_) => Ok(()),
    }
}

// Adds whether each log of a definition is due.
fn add_decisions(
    alloc: Global,
    rule: &Rule,
    looks: &[LogLook],
    state: &State,
    clock: &Clock,
    force: bool,
    decisions: &mut Vec<(Path, Due)>,
) -> Result<(), Memory>
    ensures { OnOk result (decisions.new.items ≡ decisions.old.items
        ++ decisions_of (decision state.now clock.entry.now.now force rule.now) looks.now) }
{
    for look in looks {
        let path = look.path.copy(alloc)?;
        decisions.push((path, decide(rule, look, state, &clock.now, force)))?;
    }
    Ok(())
}

// The plans of a definition's logs that are due; adds what hinders some.
fn plan_all(
    alloc: Global,
    rule: &Rule,
    mailer: &Path,
    looks: &[LogLook],
    state: &State,
    clock: &Clock,
    force: bool,
    faults: &mut Vec<Fault>,
) -> Result<Vec<LogPlan>, Memory>
    requires { CanPlanSet rule.now looks.now }
    ensures plans { IfOk result (λ plans. plans.items ≡ log_plans clock.entry.now mailer.now rule.now
        (decision state.now clock.entry.now.now force rule.now) looks.now) }
    ensures faults { OnOk result (faults.new.items ≡ faults.old.items
        ++ log_faults clock.entry.now rule.now (decision state.now clock.entry.now.now force rule.now) looks.now) }
{
    let mut plans = Vec::new(alloc);
    for look in looks {
        let decided = decide(rule, look, state, &clock.now, force);
        add_look(
            alloc, rule, mailer, clock, look, decided, &mut plans, faults,
        )?;
    }
    Ok(plans)
}

// The plan of a definition with these words and these logs.
fn with_scripts(
    alloc: Global,
    rule: &Rule,
    words: &[u8],
    logs: Vec<LogPlan>,
) -> Result<SetPlan, Memory>
    requires { words.now ≡ spaced rule.now.words }
    ensures { IfOk result (λ set. set ≡ set_plan rule.now logs.items) }
{
    let (pre, post) = shared_scripts(alloc, rule, words)?;
    let (first, last) = outer_scripts(alloc, rule, words)?;
    Ok(SetPlan {
        first,
        pre,
        post,
        last,
        shared: rule.shared,
        logs: Listed::from_vec(logs),
    })
}

fn set_of(alloc: Global, rule: &Rule, logs: Vec<LogPlan>) -> Result<SetPlan, Memory>
    ensures { IfOk result (λ set. set ≡ set_plan rule.now logs.items) }
{
    let words = spaced(alloc, rule.words.as_slice())?;
    with_scripts(alloc, rule, words.bytes(), logs)
}

// The plan of a definition; adds what hinders some of its logs.
fn plan_set(
    alloc: Global,
    rule: &Rule,
    mailer: &Path,
    looks: &[LogLook],
    state: &State,
    clock: &Clock,
    force: bool,
    faults: &mut Vec<Fault>,
) -> Result<SetPlan, Memory>
    requires { CanPlanSet rule.now looks.now }
    ensures set { IfOk result (λ set. set ≡ set_plan rule.now
        (log_plans clock.entry.now mailer.now rule.now (decision state.now clock.entry.now.now force rule.now) looks.now)) }
    ensures faults { OnOk result (faults.new.items ≡ faults.old.items
        ++ log_faults clock.entry.now rule.now (decision state.now clock.entry.now.now force rule.now) looks.now) }
{
    let logs = plan_all(alloc, rule, mailer, looks, state, clock, force, faults)?;
    set_of(alloc, rule, logs)
}

// What is planned so far.
#[derive(Drop)]
struct Draft {
    decisions: Vec<(Path, Due)>,
    sets: Vec<SetPlan>,
    faults: Vec<Fault>,
}

// Adds what is planned for a definition.
fn add_set(
    alloc: Global,
    rule: &Rule,
    mailer: &Path,
    looks: &[LogLook],
    state: &State,
    clock: &Clock,
    force: bool,
    draft: &mut Draft,
) -> Result<(), Memory>
    requires { CanPlanSet rule.now looks.now }
    ensures decisions { OnOk result (draft.new.decisions.items ≡ draft.old.decisions.items
        ++ decisions_of (decision state.now clock.entry.now.now force rule.now) looks.now) }
    ensures sets { OnOk result (draft.new.sets.items ≡ draft.old.sets.items
        ++ set_plan rule.now (log_plans clock.entry.now mailer.now rule.now (decision state.now clock.entry.now.now force rule.now)
        looks.now) ∷ []) }
    ensures faults { OnOk result (draft.new.faults.items ≡ draft.old.faults.items
        ++ log_faults clock.entry.now rule.now (decision state.now clock.entry.now.now force rule.now) looks.now) }
{
    add_decisions(
        alloc,
        rule,
        looks,
        state,
        clock,
        force,
        &mut draft.decisions,
    )?;
    let set = plan_set(
        alloc,
        rule,
        mailer,
        looks,
        state,
        clock,
        force,
        &mut draft.faults,
    )?;
    draft.sets.push(set)?;
    Ok(())
}

// Plans for each definition.
fn plan_sets(
    alloc: Global,
    rules: &[Rule],
    mailer: &Path,
    sets: &[SetLooks],
    state: &State,
    clock: &Clock,
    force: bool,
    draft: &mut Draft,
) -> Result<(), Memory>
    requires { CanPlanAll rules.now sets.now }
    ensures decisions { OnOk result (draft.new.decisions.items ≡ draft.old.decisions.items
        ++ all_decisions (decision state.now clock.entry.now.now force) rules.now sets.now) }
    ensures sets { OnOk result (draft.new.sets.items ≡ draft.old.sets.items
        ++ all_plans clock.entry.now mailer.now (decision state.now clock.entry.now.now force) rules.now sets.now) }
    ensures faults { OnOk result (draft.new.faults.items ≡ draft.old.faults.items
        ++ all_faults clock.entry.now (decision state.now clock.entry.now.now force) rules.now sets.now) }
{
    for at in 0..rules.len() {
        add_set(
            alloc,
            &rules[at],
            mailer,
            sets[at].logs.as_slice(),
            state,
            clock,
            force,
            draft,
        )?;
    }
    Ok(())
}

/// The plan of a run: whether each log that was looked at whole is due, what is done with those that are, and what
/// hinders some. A log with numbered members goes to the first number, one with dated members to the clock's stamp.
///
/// A rotation makes the directory of its log's family, with the mode that `createolddir` gives, where the rule has that and
/// nothing stood at the directory's path, in a directory that was there; it is planned as if the new one were there, and
/// empty. Else a missing directory hinders the rotation: `NoDir` tells its path, also where the directory around it is
/// missing too.
pub fn plan(
    alloc: Global,
    rules: &Rules,
    looks: &Looks,
    state: &State,
    clock: &Clock,
    settings: &Settings,
) -> Result<Plan, Memory>
    requires { CanPlanAll rules.now.sets looks.now.sets }
    ensures { IfOk result (λ plan. plan ≡ plan_of rules.now.sets looks.now.sets state.now clock.entry.now
        (asking settings.now.force settings.now.mailer)) }
{
    let mut draft = Draft {
        decisions: Vec::new(alloc),
        sets: Vec::new(alloc),
        faults: Vec::new(alloc),
    };
    plan_sets(
        alloc,
        rules.sets.as_slice(),
        &settings.mailer,
        looks.sets.as_slice(),
        state,
        clock,
        settings.force,
        &mut draft,
    )?;
    let Draft {
        decisions,
        sets,
        faults,
    } = draft;
    Ok(Plan {
        decisions: Listed::from_vec(decisions),
        sets: Listed::from_vec(sets),
        faults: Listed::from_vec(faults),
    })
}
