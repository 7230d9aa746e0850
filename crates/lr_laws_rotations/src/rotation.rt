// The steps of one rotation: they fit, they keep each set safe, and they lie aside of others.
ghost use Rattle.std.specs.Prelude.{◌≡◌, ◌≤◌, ℕ, List, [], reverse, false, Option};
ghost use Rattle.lr_rules.specs.declared.clock.Clock.{Clock};
ghost use Rattle.lr_rules.specs.declared.path.Path.{Path};
ghost use Rattle.lr_rules.specs.declared.rule.Count.{Count};
ghost use Rattle.lr_rules.specs.declared.rule.Make.{Make};
ghost use Rattle.lr_rules.specs.declared.rule.Naming.{Naming};
ghost use Rattle.lr_rules.specs.Names.{Meet};
ghost use Rattle.lr_rules.specs.Limits.{IsCount};
ghost use Rattle.lr_host.specs.declared.entry.Entry.{Entry};
ghost use Rattle.lr_host.specs.Opening.{IsJournal};
ghost use Rattle.lr_host.specs.Quiet.{AreQuiet};
ghost use Rattle.lr_host.specs.Runs.{rules_of, SomeRule, has_begun};
ghost use Rattle.lr_host.specs.Safe.{IsSafe};
ghost use Rattle.lr_host.specs.Sets.{LogSet, IsUnplaced};
ghost use Rattle.lr_host.specs.Steady.{NoneAttached};
ghost use Rattle.lr_host.specs.Told.{Each, Made};
ghost use Rattle.lr_host.specs.World.{Past, world};
ghost use Rattle.lr_laws.specs.Forward.{IsForwardFor};
ghost use Rattle.lr_laws.specs.Rotation.{IsAside};
ghost use Rattle.lr_laws.specs.Stays.{RotatesSet};
ghost use Rattle.lr_family.specs.declared.stand.Stand.{Stand};
ghost use Rattle.lr_family.specs.Places.{AreNamed};
ghost use Rattle.lr_chain.specs.Hindrances.{what_hinders};
ghost use Rattle.lr_chain.specs.Prepared.{ready_of};
ghost use Rattle.lr_laws_family.specs.Members.{IsFamily};
ghost use Rattle.lr_laws_family.specs.Shown.{SawFile, Shown};
ghost use Rattle.lr_laws_rotations.specs.Steps.{bare_steps};

/// Behind looks of a run that saw the log and its members, where the run has begun no rotation of the set, nothing hinders
/// one, and no writer was attached to a member, they are those of one rotation of the set; of dates where the set's moments
/// haven't gone ahead of the clock's stamp. What goes is what a rule of the log lets go by this count and by this age, before
/// the run's moment, which is the clock's. What is renamed is the log, or a file where the log waits that was set aside.
pub fn rotation_is_one()
    ensures one { (clock : Clock) (s : LogSet) (log : Path) → IsUnplaced s log → IsFamily log s.naming → (c : Count)
        (maxage : Option ℕ) (anew : Make) (stand : Stand) (p q : Past) (es : List Entry) → IsFamily s.log s.naming
        → s.naming.start ≤ 999999 → IsCount c → IsJournal p → NoneAttached s q → Made p es q → AreQuiet es
        → SawFile log (reverse es) → Shown s.naming stand.members (reverse es)
        → what_hinders s.naming c clock stand ≡ [] → has_begun s q ≡ false → IsSafe s q → IsForwardFor clock s q
        → (world q).now ≡ clock.now.seconds → SomeRule (rules_of q) s.log (λ r. (r.count ≡ c) × (r.maxage ≡ maxage))
        → RotatesSet (bare_steps (ready_of log s.naming c maxage clock anew stand.members)) s q }

    // They lie aside of each set that the log's doesn't meet.
    ensures aside { (clock : Clock) (s : LogSet) (log : Path) (n : Naming) (c : Count) (maxage : Option ℕ) (anew : Make)
        (stand : Stand) → IsFamily log n → n.start ≤ 999999 → IsCount c → AreNamed n stand.members
        → what_hinders n c clock stand ≡ [] → (Meet s.log s.naming log n → ⊥)
        → Each (IsAside s) (bare_steps (ready_of log n c maxage clock anew stand.members)) }
{}
