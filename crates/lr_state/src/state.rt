// The table of a state file.
ghost use Rattle.std.specs.Prelude.{◌≡◌, ◌<◌, ◌≤◌, ◌^◌, ◌-◌, ℕ, List, [], filter, not, Bool, true, ◌||◌, ◌++◌, ◌∷◌, OnOk, OnErr};
ghost use Rattle.std.specs.Prelude.{IsSome, IsOk, IsTrue, Some, Ok, length, take, min, slice_get};
ghost use Rattle.lr_state.specs.Grammar.{TextSays};
ghost use Rattle.lr_state.specs.Table.{StateEntry, moment_of, put, is_name, is_old, is_table, IsNameTest};
ghost use Rattle.lr_state.specs.Written.{entry_line, table_text};

use crate::write::put_line;
use indexmap::IndexMap;
use lr_rules::{Civil, Memory};
use std::alloc::{AllocError, Global};
use std::marker::Model;

/// The logs of a state file, each with the moment of its last rotation, in their order in the file. Contracts see
/// the list of names and moments.
#[derive(Drop)]
pub struct State {
    entries: IndexMap<Vec<u8>, Civil>,
}

impl Model for State {
    ghost use Rattle.std.specs.Prelude.{◌≡◌, true, List, map};
    ghost use Rattle.lr_state.specs.Table.{StateEntry, is_table};

    ghost Value = { List StateEntry };

    ghost view = { λ s. map (λ e. (e.0.items, e.1)) s.entries.entries };

    ghost invariant = { λ s. is_table (map (λ e. (e.0.items, e.1)) s.entries.entries) ≡ true };
}

/// Whether a moment is more than 366 times 86,400 civil seconds before now.
fn is_past(at: &Civil, now: &Civil) -> bool
    ensures { result ≡ is_old at.now now.now }
{
    now.seconds_since(at) > 31_622_400
}

impl State {
    /// A table without entries, which has taken no memory.
    #[tactic(auto, unfolding(crate::specs::Table::is_table))]
    pub fn new(alloc: Global) -> State
        ensures { result ≡ [] }
    {
        State {
            entries: IndexMap::new(alloc),
        }
    }

    /// How many entries there are.
    pub fn len(&self) -> usize
        ensures { result ≡ length self.now }
    {
        self.entries.len()
    }

    /// The moment of the last rotation of a log; None exactly where the table lacks it.
    pub fn get(&self, name: &[u8]) -> Option<Civil>
        ensures { result ≡ moment_of self.now name.now }
    {
        self.entries.get(name).copied()
    }

    /// Sets the moment of a log. A new name goes last; for a name that is there no memory is needed. After want of
    /// memory the table is unchanged.
    pub fn set(&mut self, name: &[u8], at: Civil) -> Result<(), Memory>
        requires { IsTrue (is_name name.now) }
        ensures ok { OnOk result (self.new ≡ put self.old name.now at) }
        ensures err { OnErr result (self.new ≡ self.old) }
        ensures there { IsSome (moment_of self.old name.now) → IsOk result }
        // Each name of a table is one of a log, and none stands twice.
        ensures table { is_table self.old ≡ true }
    {
        if let Some(held) = self.entries.get_mut(name) {
            *held = at;
            return Ok(());
        }
        let key = name.to_vec(*self.entries.allocator())?;
        self.entries.insert(key, at)?;
        Ok(())
    }

    /// Adds a name that the table lacks, with its moment, at the end.
    pub(crate) fn add(&mut self, name: Vec<u8>, at: Civil) -> Result<(), AllocError>
        requires name { IsTrue (is_name name.items) }
        requires new { moment_of self.old name.items ≡ None }
        ensures ok { OnOk result (self.new ≡ self.old ++ (name.items, at) ∷ []) }
        ensures err { OnErr result (self.new ≡ self.old) }
    {
        self.entries.insert(name, at)?;
        Ok(())
    }

    /// Leaves out each entry whose moment is more than 366 times 86,400 civil seconds before now and whose name
    /// `used` answers with false. The others keep their order and their moments.
    pub fn purge<F: Fn(&[u8]) -> bool>(&mut self, used: F, now: &Civil)
        requires { F.IsAlwaysCallable used }
        ensures { (t : List ℕ → Bool) → IsNameTest (F.post used) t
            → self.new ≡ filter (λ e. t e.0 || not (is_old e.1 now.now)) self.old }
    {
        self.entries.retain(|name: &Vec<u8>, at: &mut Civil| -> bool {
            !is_past(at, now) || used(name.as_slice())
        });
    }

    fn entry(&self, k: usize) -> (&[u8], &Civil)
        requires { k < length self.now }
        ensures entry { slice_get self.now k ≡ Some (result.0.now, result.1.now) }
        ensures short { length result.0.now ≤ 4096 }
    {
        let Some((name, at)) = self.entries.get_index(k) else {
            unreachable!()
        };
        (name.as_slice(), at)
    }

    /// Writes the line of the k-th entry, counted from 0, with its newline to the front of `into`, and gives its
    /// length in bytes. What is behind it in `into` is open.
    pub fn line(&self, k: usize, into: &mut [u8]) -> usize
        requires in_range { k < length self.now }
        requires room { 8448 ≤ length into.old }
        ensures line { (e : StateEntry) → slice_get self.now k ≡ Some e → take result into.new ≡ entry_line e }
        ensures len { (e : StateEntry) → slice_get self.now k ≡ Some e → result ≡ length (entry_line e) }
        ensures bound { result ≤ 8448 }
    {
        let (name, at) = self.entry(k);
        put_line(into, name, at)
    }

    /// The length in bytes of the text of the table, its first line included; u64::MAX where it is longer than that.
    pub fn text_len(&self) -> u64
        ensures { result ≡ min (2 ^ 64 - 1) (length (table_text self.now)) }
    {
        let mut line = [0u8; 8448];
        let mut len = 29u64;
        for k in 0..self.len() {
            len = len.saturating_add(self.line(k, &mut line) as u64);
        }
        len
    }
}

/// The text that is written for a table says that table, where it is not too big to be read.
pub fn written_text_is_read(state: &State)
    ensures { length (table_text state.now) ≤ 67_108_864 → TextSays (table_text state.now) (Ok state.now) }
{
    let _entries = state.entries.len();
}
