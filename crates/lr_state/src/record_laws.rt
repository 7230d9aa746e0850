// A law of the table behind a run.
ghost use Rattle.std.specs.Prelude.{◌≡◌, List, [], map};
ghost use Rattle.lr_rules.specs.declared.civil.Civil.{Civil};
ghost use Rattle.lr_rules.specs.declared.path.Path.{Path};
ghost use Rattle.lr_state.specs.Table.{StateEntry};
ghost use Rattle.lr_state.specs.After.{after, stamped};

/// Which logs are rotated can be written down last: into the table of a run that rotated none.
pub fn stamps_make_after()
    ensures { (table : List StateEntry) (rotated kept : List Path) (now : Civil)
        → after table rotated kept now ≡ map (stamped rotated now) (after table [] kept now) }
{}
