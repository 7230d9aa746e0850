// When a log that was set aside may be let go.
ghost use Rattle.std.specs.Prelude.{ℕ, List, reverse};
ghost use Rattle.lr_host.specs.declared.entry.Entry.{Entry};
ghost use Rattle.lr_host.specs.Opening.{IsJournal};
ghost use Rattle.lr_host.specs.Sets.{LogSet};
ghost use Rattle.lr_host.specs.Told.{Made};
ghost use Rattle.lr_host.specs.World.{Past};
ghost use Rattle.lr_copy.specs.declared.job.Job.{Job};
ghost use Rattle.lr_copy.specs.Fits.{ArePaths};
ghost use Rattle.lr_laws_family.specs.Whole.{Named, WritersSpareCopy};
ghost use Rattle.lr_move.specs.Moved.{CopiesAside, IsLetGo};

/// From the sync of the directory on, while the tool does nothing more, the log may be let go: a member names another file,
/// whole, now and after each cut, whatever writers do that spare it.
pub fn copied_may_be_let_go()
    ensures { (s : LogSet) (job : Job) (count : ℕ) (p q : Past) (es : List Entry) → Made p es q → IsJournal p → ArePaths job
        → WritersSpareCopy job p q → CopiesAside s job → Named job count (reverse es) → IsLetGo s p q }
{}
