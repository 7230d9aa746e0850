// What the calls have in common.
ghost use Rattle.std.specs.Prelude.{◌≡◌, ◌≢◌, ◌≤◌, ◌⊎◌, ◌↔◌, ◌∷◌, [], true, false, Some, None, IsTrue, IsErr, OnErr, OnOk, IfOk};
ghost use Rattle.std.specs.Prelude.{Ok};
ghost use Rattle.lr_rules.specs.declared.fault.Ended.{Ended};
ghost use Rattle.lr_host.specs.declared.entry.Entry.{Entry};
ghost use Rattle.lr_host.specs.declared.thing.Thing.TheVariants as thing;
ghost use Rattle.lr_host.specs.World.{world, past, names};
ghost use Rattle.lr_host.specs.Told.{Rose, Are, Did, DidWhere, Can};
ghost use Rattle.lr_memhost.specs.How.{idles};
ghost use Rattle.lr_memhost.specs.Acts.{how_at, one_more, first_end, is_bad_ending, after_end};
ghost use Rattle.lr_memhost.specs.Acts.{LockIsFree, Starved, Unraised};
ghost use Rattle.lr_memhost.specs.Acts.{CallTurned, IsSure, IsMaking};
ghost use Rattle.lr_memhost.specs.Calm.{StaysCalm};
ghost use Rattle.lr_memhost.specs.declared.act.How.TheVariants as way;

use super::MemHost;
use crate::act::{How, is_idle, is_stop};
use crate::turn::{leave, leave_new, listed, take_acts};
use lr_host::{CallFault, Entry};
use lr_rules::{Ended, Memory, Path};

fn is_bad_end(end: Ended) -> bool
    ensures { result ≡ is_bad_ending end }
{
    match end {
        Ended::Exit(code) => code != 0,
        Ended::Killed => true,
    }
}

impl MemHost {
    // How the next call is to fail.
    pub(super) fn how(&self) -> Option<How>
        ensures { result ≡ how_at self.now }
    {
        if self.down {
            return Some(How::Stop);
        }
        listed(&self.failing, self.calls)
    }

    // Lets writers act, numbers the call and says how it is to fail.
    pub(super) fn turn(&mut self) -> Option<How>
        ensures listed { result ≡ how_at self.old }
        ensures turned { CallTurned (Are []) self.old self.new }
        ensures faults { self.new.faults ≡ self.old.faults }
        ensures starved { self.old.starved ≤ self.new.starved }
        ensures fed { self.new.acts ≡ [] → self.new.starved ≡ self.old.starved }
        ensures rest { self.new.rest ≡ self.old.rest }
    {
        let how = self.how();
        let number = self.calls;
        self.calls = self.calls.saturating_add(1);
        self.down = is_stop(how);
        let Ok(()) = take_acts(&mut self.disk, &mut self.acts, number) else {
            self.starved = self.starved.saturating_add(1);
            return how;
        };
        how
    }

    // Counts a fault.
    pub(super) fn fail_call(&mut self) -> CallFault
        ensures counted { self.new ≡ record self.old { faults = one_more self.old.faults } }
        ensures later { self.old.faults ≤ self.new.faults }
    {
        self.faults = self.faults.saturating_add(1);
        CallFault::Failed
    }

    // Counts a fault for want of memory.
    pub(super) fn starve(&mut self) -> CallFault
        ensures counted { self.new ≡ record self.old { faults = one_more self.old.faults; starved = one_more self.old.starved } }
        ensures later { (self.old.faults ≤ self.new.faults) × (self.old.starved ≤ self.new.starved) }
    {
        self.starved = self.starved.saturating_add(1);
        self.fail_call()
    }

    // Makes a call of `begin` where the lock is taken.
    pub(super) fn begin_locked(&mut self) -> Result<bool, CallFault>
        requires { ¬ LockIsFree self.old.rest }
        ensures turned { CallTurned (Are []) self.old self.new }
        ensures cause { OnErr result (Rose self.old.faults self.new.faults) }
        ensures faults { self.old.faults ≤ self.new.faults }
        ensures only { OnErr result (how_at self.old ≢ None) }
        ensures listed { how_at self.old ≢ None → IsErr result }
        ensures never { IfOk result (λ taken. taken ≡ false) }
        ensures steady { OnOk result (Unraised self.old self.new) }
        ensures held { OnOk result (self.new.rest ≡ record self.old.rest { held = one_more self.old.rest.held }) }
        ensures rest { OnErr result (self.new.rest ≡ self.old.rest) }
    {
        if self.turn().is_some() {
            return Err(self.fail_call());
        }
        self.held = self.held.saturating_add(1);
        Ok(false)
    }

    // Makes a call that leaves this entry, where there was memory for it, and fails so.
    pub(super) fn change(
        &mut self,
        how: Option<How>,
        entry: Result<Entry, Memory>,
    ) -> Result<(), CallFault>
        requires { IfOk entry (λ e. IsSure e × Can (Some self.old.journal) e) }
        ensures turned { (e : Entry) → IfOk entry (λ x. x ≡ e) → CallTurned (Did result e) self.old self.new }
        ensures cause { OnErr result (Rose self.old.faults self.new.faults) }
        ensures counts { self.old.faults ≤ self.new.faults }
        ensures only { OnErr result ((how ≢ None) ⊎ Starved self.old self.new) }
        ensures listed { how ≢ None → IsErr result }
        ensures nothing { idles how ≡ true → CallTurned (Are []) self.old self.new }
        ensures effect { (e : Entry) → IfOk entry (λ x. x ≡ e) → how ≡ Some way.WithEffect
            → CallTurned (Are (e ∷ [])) self.old self.new ⊎ Starved self.old self.new }
        ensures steady { OnOk result (Unraised self.old self.new) }
        ensures calm { how ≡ None → StaysCalm self.old self.new }
        ensures rest { self.new.rest ≡ self.old.rest }
    {
        let _ = self.turn();
        if is_idle(how) {
            return Err(self.fail_call());
        }
        let Ok(()) = leave(&mut self.disk, entry) else {
            return Err(self.starve());
        };
        if how.is_some() {
            return Err(self.fail_call());
        }
        Ok(())
    }

    // Makes a call that makes something new of the path, where it isn't named.
    pub(super) fn make(
        &mut self,
        how: Option<How>,
        path: &Path,
        entry: Result<Entry, Memory>,
    ) -> Result<bool, CallFault>
        requires { IfOk entry (λ e. IsMaking path.now e × Can (Some self.old.journal) e) }
        ensures turned { (e : Entry) → IfOk entry (λ x. x ≡ e) → CallTurned (DidWhere result e) self.old self.new }
        ensures named { result ≡ Ok false → names (world (past self.new.journal)) path.now ≢ thing.Nothing }
        ensures cause { OnErr result (Rose self.old.faults self.new.faults) }
        ensures counts { self.old.faults ≤ self.new.faults }
        ensures only { OnErr result ((how ≢ None) ⊎ Starved self.old self.new) }
        ensures listed { how ≢ None → IsErr result }
        ensures nothing { idles how ≡ true → CallTurned (Are []) self.old self.new }
        ensures effect { (e : Entry) → IfOk entry (λ x. x ≡ e) → how ≡ Some way.WithEffect
            → CallTurned (Are (e ∷ [])) self.old self.new ⊎ (names (world (past self.new.journal)) path.now ≢ thing.Nothing)
            ⊎ Starved self.old self.new }
        ensures steady { OnOk result (Unraised self.old self.new) }
        ensures calm { how ≡ None → StaysCalm self.old self.new }
        ensures rest { self.new.rest ≡ self.old.rest }
    {
        let _ = self.turn();
        if is_idle(how) {
            return Err(self.fail_call());
        }
        let Ok(made) = leave_new(&mut self.disk, path, entry) else {
            return Err(self.starve());
        };
        if how.is_some() {
            return Err(self.fail_call());
        }
        Ok(made)
    }

    // Whether somebody has the lock.
    pub(super) fn is_locked(&self) -> bool
        ensures { IsTrue result ↔ ¬ LockIsFree self.now.rest }
    {
        self.mine || self.another
    }

    // How the next program ends.
    pub(super) fn next_end(&self) -> Ended
        ensures { result ≡ first_end self.now.rest.ends }
    {
        if self.ends.is_empty() {
            return Ended::Exit(0);
        }
        self.ends[0]
    }

    // Counts the end of a program that ran.
    pub(super) fn count_end(&mut self)
        ensures { self.new ≡ record self.old { rest = after_end self.old.rest } }
    {
        if is_bad_end(self.next_end()) {
            self.bad_ends = self.bad_ends.saturating_add(1);
        }
        if !self.ends.is_empty() {
            let _ = self.ends.remove(0);
        }
    }
}
