// Where a state can be written.
ghost use Rattle.std.specs.Prelude.{ℕ, List, [], map, Option, Ok};
ghost use Rattle.lr_rules.specs.declared.clock.Clock.{Clock};
ghost use Rattle.lr_rules.specs.declared.fault.Fault.{Fault};
ghost use Rattle.lr_rules.specs.declared.path.Path.{Path};
ghost use Rattle.lr_rules.specs.declared.rule.Rule.{Rule};
ghost use Rattle.lr_rules.specs.declared.rules.Rules.{Rules};
ghost use Rattle.lr_rules.specs.Path.{parent_of};
ghost use Rattle.lr_due.specs.declared.answer.Due.{Due};
ghost use Rattle.lr_host.specs.declared.entry.Entry.TheVariants as entry;
ghost use Rattle.lr_host.specs.declared.journal.Journal.{Journal};
ghost use Rattle.lr_host.specs.Opening.{IsJournal};
ghost use Rattle.lr_host.specs.Told.{Left, Can, WhereTold};
ghost use Rattle.lr_plan.specs.declared.looks.LogLook.{LogLook};
ghost use Rattle.lr_plan.specs.declared.looks.SetLooks.{SetLooks};
ghost use Rattle.lr_plan.specs.declared.mark.Mark.{Mark};
ghost use Rattle.lr_plan.specs.Done.{SetsDone};
ghost use Rattle.lr_plan.specs.Planned.{all_plans};
ghost use Rattle.lr_plan.specs.Steps.{steps_of_set};
ghost use Rattle.lr_state.specs.declared.remembered.Remembered.{Remembered};
ghost use Rattle.lr_state.specs.Known.{ReadsState};
ghost use Rattle.lr_looks.specs.Reserved.{reserved_by};
ghost use Rattle.lr_writing.specs.Fits.{CanBegin};
ghost use Rattle.lr_writing.specs.Synced.{AreSynced};
ghost use Rattle.lr_laws_looks.specs.Looked.{LooksCameTo};

use crate::targets::targets_are_free;

/// Behind the acts of a plan the state can be written, whatever failed in them and whatever writers did: its path and that
/// of its part file are as the reading saw them, since no log of the plan has such a name, and its directory stands, as do
/// those that are synced, on a disk: the looks saw each of them or a file in it, or a mark of the acts tells that it was
/// made. The state was read, the logs were looked at and the acts were made, one behind another.
pub fn state_has_its_place()
    ensures { (state : Path) (size : ℕ) (remembered : Remembered) (rules : Rules) (sets : List SetLooks) (clock : Clock)
        (mailer : Path) (decide : Rule → LogLook → Due) (marks : List Mark) (faults : List Fault) (dirs : List Path)
        (before read looked acted : Option Journal)
        → AreSynced (all_plans clock mailer decide rules.sets sets) marks dirs → WhereTold before IsJournal
        → Can before (entry.List (parent_of state) [])
        → Left (ReadsState state size (Ok (Ok remembered))) before read
        → Left (LooksCameTo (reserved_by state) rules.sets sets) read looked
        → Left (SetsDone (map steps_of_set (all_plans clock mailer decide rules.sets sets)) marks faults) looked acted
        → CanBegin acted state remembered.stale dirs }
{
    targets_are_free();
}
