// The layer takes lines in, and makes rules of them.
ghost use Rattle.std.specs.Prelude.{◌≡◌, List, true};
ghost use Rattle.std.specs.List.{list_all};
ghost use Rattle.lr_rules.specs.Limits.{meets_limits};
ghost use Rattle.lr_conf.specs.Meaning.{ConfLine};
ghost use Rattle.lr_conf.specs.Internal.Draft.{coming_from};

use crate::draft::Draft;
use crate::stop::{Include, LayerStop};
use lr_lex::Item;
use lr_match::Taboo;
use lr_rules::{ConfKind, Listed, Memory, Notice, Path, Rules};
use std::alloc::Global;
use std::mem;

/// What the lines of a configuration made so far. Whichever lines come, each rule meets the limits of its values.
#[derive(Drop)]
pub struct Layer {
    draft: Draft,
    ghost limits: { (lines : List ConfLine) → list_all meets_limits (coming_from draft lines).rules ≡ true },
}

impl Layer {
    ghost use Rattle.std.specs.Prelude.{◌<◌, ◌-◌, [], ◌∷◌, ◌++◌, false, length, take, IfOk, MatchOption};
    ghost use Rattle.lr_rules.specs.declared.fault.Fault.{Fault};
    ghost use Rattle.lr_match.specs.Taboos.{first_taboo};
    ghost use Rattle.lr_conf.specs.Meaning.{Read, Spoiled, End, Cut, meaning, asked, banned, only_faults, conf, ◌and◌};
    ghost use Rattle.lr_conf.specs.Fold.{coming, asking, banning, LayerTook, Asks, Bans, Alike, LayerPasses};
    ghost use Rattle.lr_conf.specs.Fold.{file_of_layer, entered};

    /// A layer that took no line, with room for 8 entered files.
    pub fn new(alloc: Global) -> Result<Layer, Memory>
        ensures files { IfOk result (λ layer. entered layer ≡ []) }
        ensures means { IfOk result (λ layer. (lines : List ConfLine) → coming layer lines ≡ meaning false [] lines) }
        ensures asks { IfOk result (λ layer. (lines : List ConfLine) → asking layer lines ≡ asked false lines) }
        ensures bans { IfOk result (λ layer. (lines : List ConfLine) → banning layer lines ≡ banned false first_taboo lines) }
    {
        Ok(Layer {
            draft: Draft::new(alloc)?,
        })
    }

    /// The lines that come are those of this file.
    pub fn enter(&mut self, file: Path)
        requires { length (entered self.old) < 8 }
        ensures files { entered self.new ≡ entered self.old ++ file ∷ [] }
        ensures same { (lines : List ConfLine) → coming self.new lines ≡ coming self.old lines }
        ensures alike { Alike self.old self.new }
    {
        self.draft.files.enter(file);
    }

    /// The lines that come are those of the file that was entered before.
    pub fn leave(&mut self)
        requires { 0 < length (entered self.old) }
        ensures files { entered self.new ≡ take (length (entered self.old) - 1) (entered self.old) }
        ensures same { (lines : List ConfLine) → coming self.new lines ≡ coming self.old lines }
        ensures alike { Alike self.old self.new }
    {
        self.draft.files.leave();
    }

    /// How many files are entered and not left.
    pub fn depth(&self) -> usize
        ensures { result ≡ length (entered self.now) }
    {
        self.draft.files.len()
    }

    /// The file that is read, which was entered last.
    pub fn file(&self) -> &Path
        requires { 0 < length (entered self.now) }
        ensures { result.now ≡ file_of_layer self.now }
    {
        self.draft.files.top()
    }

    /// Takes an item of the file in. A fault is told, and the line that has it; `Memory` leaves all as it was, and the
    /// item is lost. Where the line asks for another file, the caller enters it, or tells why not, before the next line.
    pub fn take(&mut self, item: Item) -> Result<Option<Include>, LayerStop>
        requires { 0 < length (entered self.old) }
        ensures files { entered self.new ≡ entered self.old }
        ensures means { LayerTook self.old self.new (file_of_layer self.old) (Read (file_of_layer self.old) item) result }
        ensures asks { Asks self.old self.new (Read (file_of_layer self.old) item) result }
        ensures bans { Bans self.old self.new (Read (file_of_layer self.old) item) result }
    {
        self.draft.take(item)
    }

    /// A line has a fault that its reading told, whichever it is: it drops the definition that is being read, where one
    /// is. Names that are pending stay. The caller tells the fault, also in a definition that is dropped already.
    pub fn spoil(&mut self, line: u32)
        ensures files { entered self.new ≡ entered self.old }
        ensures means { (f : Fault) (lines : List ConfLine) → coming self.old (Spoiled f ∷ lines)
            ≡ (only_faults (f ∷ []) and coming self.new lines) }
        ensures passes { (f : Fault) → LayerPasses self.old self.new (Spoiled f) }
    {
        self.draft.spoil(line);
    }

    /// The file ends: names, or a definition that no fault dropped, are pending no more. Where there were any, the line
    /// of the first name is told, with NoBrace.
    pub fn close_file(&mut self) -> Option<(u32, ConfKind)>
        requires { 0 < length (entered self.old) }
        ensures files { entered self.new ≡ entered self.old }
        ensures means { MatchOption result
            ((lines : List ConfLine) → coming self.old (End (file_of_layer self.old) ∷ lines) ≡ coming self.new lines)
            (λ r. (lines : List ConfLine) → coming self.old (End (file_of_layer self.old) ∷ lines)
            ≡ (only_faults (conf (file_of_layer self.old) r.1 r.0 ∷ []) and coming self.new lines)) }
        ensures passes { LayerPasses self.old self.new (End (file_of_layer self.old)) }
    {
        self.draft.close_file()
    }

    /// The reading of the file breaks off, and the caller tells why: names, or a definition, that are pending give nothing.
    pub fn cut_file(&mut self)
        ensures files { entered self.new ≡ entered self.old }
        ensures means { (lines : List ConfLine) → coming self.old (Cut ∷ lines) ≡ coming self.new lines }
        ensures passes { LayerPasses self.old self.new Cut }
    {
        self.draft.cut_file();
    }

    /// The taboo list behind the lines that were taken.
    pub fn taboo(&self) -> &Taboo
        ensures { result.now ≡ banning self.now [] }
    {
        &self.draft.taboo
    }

    /// The rules and the notices of all that was taken.
    pub fn finish(self) -> (Rules, Vec<Notice>)
        ensures rules { result.0.sets ≡ (coming self []).rules }
        ensures notices { result.1.items ≡ (coming self []).notices }
    {
        // They are taken out of the draft, since it costs much to let go what is left of one that is taken apart.
        let mut draft = self.draft;
        let rules = mem::replace(&mut draft.rules, Vec::new(draft.alloc));
        let notices = mem::replace(&mut draft.notices, Vec::new(draft.alloc));
        drop(draft);
        (
            Rules {
                sets: Listed::from_vec(rules),
            },
            notices,
        )
    }
}
