// What a ready rotation is, whole.
ghost use Rattle.std.specs.Prelude.{◌≡◌, ◌≤◌, ℕ, true, List, [], Option, None, IsSome};
ghost use Rattle.lr_rules.specs.declared.clock.Clock.{Clock};
ghost use Rattle.lr_rules.specs.declared.path.Path.{Path};
ghost use Rattle.lr_rules.specs.declared.rule.Count.{Count};
ghost use Rattle.lr_rules.specs.declared.rule.Make.{Make};
ghost use Rattle.lr_rules.specs.declared.rule.Naming.{Naming};
ghost use Rattle.lr_rules.specs.Limits.{is_format, or_none, IsCount};
ghost use Rattle.lr_rules.specs.Path.{path_fault};
ghost use Rattle.lr_family.specs.declared.stand.Member.{Member};
ghost use Rattle.lr_family.specs.declared.stand.Stand.{Stand};
ghost use Rattle.lr_family.specs.Kin.{IsKin};
ghost use Rattle.lr_family.specs.Places.{AreNamed};
ghost use Rattle.lr_chain.specs.DatedReady.{dated_target, all_by};
ghost use Rattle.lr_chain.specs.DatedRotation.{dated_rotation};
ghost use Rattle.lr_chain.specs.Hindrances.{what_hinders};
ghost use Rattle.lr_chain.specs.Prepared.{ready_of};
ghost use Rattle.lr_chain.specs.Ready.{ready_steps};
ghost use Rattle.lr_chain.specs.Rotation.{places_of, going, rotation};
ghost use Rattle.lr_chain.specs.WhereTheyStand.{FitsWhereTheyStand, ReadyTurnsFamily};

/// The steps of what `prepare` makes ready are the entries of one rotation, in order.
pub fn steps_of_ready()
    ensures numbers { (log : Path) (n : Naming) (c : Count) (maxage : Option ℕ) (clock : Clock) (anew : Make)
        (members : List Member)
        → n.dated ≡ None
        → ready_steps (ready_of log n c maxage clock anew members)
        ≡ rotation n c log (places_of members) (going c maxage clock.now.seconds members) }
    ensures dates { (log : Path) (n : Naming) (c : Count) (maxage : Option ℕ) (clock : Clock) (anew : Make) (members : List Member)
        → IsSome n.dated
        → ready_steps (ready_of log n c maxage clock anew members)
        ≡ dated_rotation c log (dated_target n clock members) (all_by n maxage clock members) }
{}

/// They fit one after another wherever the log and the members stand so, if nothing hinders: each rename finds its file, and
/// none goes over a thing of another kind.
pub fn ready_fits()
    ensures { (log : Path) (n : Naming) (c : Count) (maxage : Option ℕ) (clock : Clock) (anew : Make) (stand : Stand) → IsKin log n
        → path_fault n.dir ≡ None → n.start ≤ 999999 → IsCount c → or_none is_format n.dated ≡ true → AreNamed n stand.members
        → what_hinders n c clock stand ≡ [] → FitsWhereTheyStand log n c maxage clock anew stand.members }
{}

/// Their changes turn the family. Of numbers the log's file stands at place 0 then, each other that isn't too old at the next
/// place, and none from the count on. Of dates the latest stay, as many as the count says, the log's file under its new name
/// among them, less those that were too old. Each other path names what it named.
pub fn ready_turns()
    ensures { (log : Path) (n : Naming) (c : Count) (maxage : Option ℕ) (clock : Clock) (anew : Make) (stand : Stand) → IsKin log n
        → n.start ≤ 999999 → IsCount c → or_none is_format n.dated ≡ true → AreNamed n stand.members
        → what_hinders n c clock stand ≡ [] → ReadyTurnsFamily log n c maxage clock anew stand.members }
{}
