// A log that was set aside, let go too early.
ghost use Rattle.std.specs.Prelude.{◌≡◌};
ghost use Rattle.lr_host.specs.Opening.{IsJournal};
ghost use Rattle.lr_host.specs.Sets.{LogSet};
ghost use Rattle.lr_laws.specs.Chain.{log};
ghost use Rattle.lr_move.specs.Moved.{LetsGoWhole};
ghost use Rattle.lr_move.specs.Worked.{start, before_file_sync, before_dir_sync};

/// Where it is unlinked before the sync of the part file, a cut may leave the copy without its bytes.
pub fn unsynced_bytes_are_not_let_go_whole()
    ensures journal { IsJournal before_file_sync }
    ensures lost { (s : LogSet) → s.log ≡ log → LetsGoWhole s start before_file_sync → ⊥ }
{}

/// Where it is unlinked before the sync of the directory, a cut may leave no path to the copy.
pub fn unsynced_name_is_not_let_go_whole()
    ensures journal { IsJournal before_dir_sync }
    ensures lost { (s : LogSet) → s.log ≡ log → LetsGoWhole s start before_dir_sync → ⊥ }
{}
