// Logs that a run empties.
ghost use Rattle.std.specs.Prelude.{List, Option};
ghost use Rattle.lr_rules.specs.declared.fault.Fault.{Fault};
ghost use Rattle.lr_host.specs.declared.entry.Entry.{Entry};
ghost use Rattle.lr_host.specs.declared.journal.Journal.{Journal};
ghost use Rattle.lr_host.specs.Lists.{IsIn};
ghost use Rattle.lr_host.specs.Told.{Left};
ghost use Rattle.lr_copy.specs.declared.job.Job.{Job};
ghost use Rattle.lr_copy.specs.Fits.{ArePaths};
ghost use Rattle.lr_plan.specs.declared.mark.Mark.{Mark};
ghost use Rattle.lr_plan.specs.declared.step.SetSteps.{SetSteps};
ghost use Rattle.lr_plan.specs.Done.{SetsDone};
ghost use Rattle.lr_plan.specs.Cut.{SetsCut};
ghost use Rattle.lr_laws_acts.specs.Emptied.{IsJobIn, EmptiesCopied, EmptiesWhole};
ghost use Rattle.lr_laws_acts.specs.Steps.{EmptyCopied};

/// Where each log that steps empty they copy just before, so it is in the entries that they leave: whatever failed, also a
/// truncation that left its entry, and where there was no memory to run a program.
pub fn acts_empty_copied()
    ensures done { (jobs : List Job) (sets : List SetSteps) (marks : List Mark) (faults : List Fault) (ts : List Entry)
        → EmptyCopied (IsJobIn jobs) sets → SetsDone sets marks faults ts → EmptiesCopied (IsJobIn jobs) ts }
    ensures cut { (jobs : List Job) (sets : List SetSteps) (marks : List Mark) (faults : List Fault) (ts : List Entry)
        → EmptyCopied (IsJobIn jobs) sets → SetsCut sets marks faults ts → EmptiesCopied (IsJobIn jobs) ts }
{}

/// Where by its entries each log that a call empties was copied just before, by a job whose paths are good, it was copied
/// whole, whatever writers do that spare the copy.
pub fn copies_are_whole()
    ensures { (jobs : List Job) (told later : Option Journal) → Left (EmptiesCopied (IsJobIn jobs)) told later
        → ((job : Job) → IsIn job jobs → ArePaths job)
        → EmptiesWhole (IsJobIn jobs) told later }
{}
