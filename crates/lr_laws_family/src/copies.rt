// The copy of a log over the entries of a call.
ghost use Rattle.std.specs.Prelude.{ℕ, List, reverse};
ghost use Rattle.lr_host.specs.declared.entry.Entry.{Entry};
ghost use Rattle.lr_host.specs.declared.entry.Entry.TheVariants as entry;
ghost use Rattle.lr_host.specs.Opening.{IsJournal};
ghost use Rattle.lr_host.specs.Safe.{IsPrefix};
ghost use Rattle.lr_host.specs.Told.{Made};
ghost use Rattle.lr_host.specs.World.{Past, ◌▸◌};
ghost use Rattle.lr_copy.specs.declared.job.Job.{Job};
ghost use Rattle.lr_copy.specs.Copying.{Copied};
ghost use Rattle.lr_copy.specs.Fits.{ArePaths};
ghost use Rattle.lr_laws_family.specs.Whole.{WritersSpareCopy, IsCopyWhole};

/// So it is just before the log is emptied; what is lost then is what was fed to the log since that read, and no more.
pub fn copy_is_whole_before_cut()
    ensures { (job : Job) (count : ℕ) (p q : Past) (es : List Entry) → Made p es q → IsJournal p → ArePaths job
        → WritersSpareCopy job p q → Copied job count (reverse es)
        → (u : Past) → IsPrefix p u → IsPrefix (u ▸ entry.Truncates job.from) q → IsCopyWhole job.from job.to p u }
{}
