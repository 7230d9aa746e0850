// A log that is emptied, worked through.
ghost use Rattle.std.specs.Prelude.{List, [], Some};
ghost use Rattle.lr_host.specs.Opening.{IsJournal};
ghost use Rattle.lr_host.specs.World.{past};
ghost use Rattle.lr_copy.specs.declared.job.Job.{Job};
ghost use Rattle.lr_laws_acts.specs.Emptied.{IsJobIn, EmptiesWhole};
ghost use Rattle.lr_laws_acts.specs.EmptiedWorked.{behind, at_once};

/// One that is emptied at once was not, by whatever jobs.
pub fn emptied_at_once_is_not_whole()
    ensures journal { IsJournal (past (behind at_once)) }
    ensures lost { (jobs : List Job) → EmptiesWhole (IsJobIn jobs) (Some (behind [])) (Some (behind at_once)) → ⊥ }
{}
