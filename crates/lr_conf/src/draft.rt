// What lines made, as it is kept from one line to the next.
ghost use Rattle.std.specs.Prelude.{◌≡◌, ◌<◌, List, [], ◌∷◌, false, length, IfOk, MatchOption};
ghost use Rattle.lr_rules.specs.declared.fault.Fault.{Fault};
ghost use Rattle.lr_match.specs.Taboos.{first_taboo};
ghost use Rattle.lr_conf.specs.Setting.{default_fields};
ghost use Rattle.lr_conf.specs.Meaning.{ConfLine, Read, Spoiled, End, Cut, meaning, asked, banned, only_faults, conf, ◌and◌};
ghost use Rattle.lr_conf.specs.Internal.Draft.{coming_from, asking_from, banning_from, TookIn, AsksIn, BansIn, PassesIn};
ghost use Rattle.lr_conf.specs.Internal.Draft.{file_of_draft, files_of};

use crate::fields::{Fields, default_fields};
use crate::files::Files;
use crate::place::Place;
use crate::stop::{Include, LayerStop};
use lr_lex::Item;
use lr_match::Taboo;
use lr_rules::{ConfKind, Memory, Notice, Phase, Rule, Text};
use std::alloc::Global;

/// What the lines of a configuration made so far: rules and notices, and what lines to come are read by.
#[derive(Drop)]
pub struct Draft {
    pub(crate) alloc: Global,
    pub(crate) files: Files,
    pub(crate) place: Place,
    /// The fields that lines outside definitions set.
    pub(crate) defaults: Fields,
    /// The words of the definition, or the names that are pending.
    pub(crate) words: Vec<Text>,
    /// The line of the first of them.
    pub(crate) first: Option<u32>,
    /// The fields of the definition.
    pub(crate) fields: Fields,
    /// The scripts that stood in it.
    pub(crate) scripts: Vec<Phase>,
    pub(crate) rules: Vec<Rule>,
    pub(crate) notices: Vec<Notice>,
    pub(crate) taboo: Taboo,
}

// The taboo list, and the fields of the defaults and of a definition, before any line.
fn first_parts(alloc: Global) -> Result<(Taboo, Fields, Fields), Memory>
    ensures taboo { IfOk result (λ parts. parts.0 ≡ first_taboo) }
    ensures fields { IfOk result (λ parts. (parts.1 ≡ default_fields) × (parts.2 ≡ default_fields)) }
{
    let taboo = Taboo::first(alloc)?;
    let Ok(defaults) = default_fields(alloc) else {
        drop(taboo);
        return Err(Memory);
    };
    match default_fields(alloc) {
        Ok(fields) => Ok((taboo, defaults, fields)),
        Err(_) => {
            drop(defaults);
            drop(taboo);
            Err(Memory)
        }
    }
}

impl Draft {
    /// A draft of no line, with room for 8 entered files.
    pub fn new(alloc: Global) -> Result<Draft, Memory>
        ensures files { IfOk result (λ draft. files_of draft ≡ []) }
        ensures means { IfOk result (λ draft. (lines : List ConfLine) → coming_from draft lines ≡ meaning false [] lines) }
        ensures asks { IfOk result (λ draft. (lines : List ConfLine) → asking_from draft lines ≡ asked false lines) }
        ensures bans { IfOk result (λ draft. (lines : List ConfLine) → banning_from draft lines ≡ banned false first_taboo lines) }
    {
        let files = Files::new(alloc)?;
        let (taboo, defaults, fields) = first_parts(alloc)?;
        Ok(Draft {
            alloc,
            files,
            place: Place::Outside,
            defaults,
            words: Vec::new(alloc),
            first: None,
            fields,
            scripts: Vec::new(alloc),
            rules: Vec::new(alloc),
            notices: Vec::new(alloc),
            taboo,
        })
    }

    /// Takes an item of the file in. A fault is told, and the line that has it; `Memory` leaves all as it was, and the
    /// item is lost.
    pub fn take(&mut self, item: Item) -> Result<Option<Include>, LayerStop>
        requires { 0 < length (files_of self.old) }
        ensures files { files_of self.new ≡ files_of self.old }
        ensures means { TookIn self.old self.new (file_of_draft self.old) (Read (file_of_draft self.old) item) result }
        ensures asks { AsksIn self.old self.new (Read (file_of_draft self.old) item) result }
        ensures bans { BansIn self.old self.new (Read (file_of_draft self.old) item) result }
    {
        self.take_in(item)
    }

    /// A line has a fault that its reading told: it drops the definition that is being read, where one is. Names that
    /// are pending stay.
    pub fn spoil(&mut self, _line: u32)
        ensures files { files_of self.new ≡ files_of self.old }
        ensures means { (f : Fault) (lines : List ConfLine) → coming_from self.old (Spoiled f ∷ lines)
            ≡ (only_faults (f ∷ []) and coming_from self.new lines) }
        ensures passes { (f : Fault) → PassesIn self.old self.new (Spoiled f) }
    {
        if let Place::Good = self.place {
            self.place = Place::Dropped;
        }
    }

    /// The file ends: names, or a definition that no fault dropped, are pending no more. Where there were any, the line
    /// of the first name is told, with NoBrace.
    pub fn close_file(&mut self) -> Option<(u32, ConfKind)>
        requires { 0 < length (files_of self.old) }
        ensures files { files_of self.new ≡ files_of self.old }
        ensures means { MatchOption result
            ((lines : List ConfLine) → coming_from self.old (End (file_of_draft self.old) ∷ lines) ≡ coming_from self.new lines)
            (λ r. (lines : List ConfLine) → coming_from self.old (End (file_of_draft self.old) ∷ lines)
            ≡ (only_faults (conf (file_of_draft self.old) r.1 r.0 ∷ []) and coming_from self.new lines)) }
        ensures passes { PassesIn self.old self.new (End (file_of_draft self.old)) }
    {
        self.end_file()
    }

    /// The reading of the file breaks off: what is pending gives nothing.
    pub fn cut_file(&mut self)
        ensures files { files_of self.new ≡ files_of self.old }
        ensures means { (lines : List ConfLine) → coming_from self.old (Cut ∷ lines) ≡ coming_from self.new lines }
        ensures passes { PassesIn self.old self.new Cut }
    {
        self.break_off();
    }
}
