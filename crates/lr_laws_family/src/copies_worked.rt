// A log that is copied, worked through.
ghost use Rattle.lr_host.specs.Opening.{IsJournal};
ghost use Rattle.lr_host.specs.World.{Opens};
ghost use Rattle.lr_laws.specs.Chain.{log, third, found};
ghost use Rattle.lr_laws_family.specs.Whole.{IsCopyWhole};
ghost use Rattle.lr_laws_family.specs.CopiesWorked.{in_order, name_pending, bytes_pending, read_on};

/// Where the part file is synced, then gets the final path, and then the directory is synced, the copy is whole.
pub fn copy_in_order_is_whole()
    ensures whole { IsCopyWhole log third (Opens found) in_order }

    // Where the directory isn't synced, a cut may leave nothing at the final path.
    ensures pending_name_journal { IsJournal name_pending }
    ensures pending_name_lost { IsCopyWhole log third (Opens found) name_pending → ⊥ }

    // Where the part file isn't synced, a cut may leave it without its bytes.
    ensures pending_bytes_journal { IsJournal bytes_pending }
    ensures pending_bytes_lost { IsCopyWhole log third (Opens found) bytes_pending → ⊥ }

    // Where the log is read on behind its copy, and what that read gave isn't copied, the copy isn't whole.
    ensures read_on_journal { IsJournal read_on }
    ensures read_on_lost { IsCopyWhole log third (Opens found) read_on → ⊥ }
{}
