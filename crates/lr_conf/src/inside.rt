// Lines in a definition.
ghost use Rattle.std.specs.Prelude.{◌≡◌, ◌<◌, [], None, length};
ghost use Rattle.lr_conf.specs.Rules.{format_of, rule_of};
ghost use Rattle.lr_conf.specs.declared.place.Place.TheVariants as place;
ghost use Rattle.lr_forms.specs.declared.said.LineSaid.TheVariants as says;
ghost use Rattle.lr_conf.specs.Internal.Draft.{SaysInside, Closes, SameRest, file_of_draft, files_of, first_of, state_of};

use crate::draft::Draft;
use crate::fields::{Fields, default_fields, set_field};
use crate::place::Place;
use crate::rule::{format_of, rule_of};
use crate::scripts::script_fault;
use crate::stop::{Include, LayerStop};
use lr_forms::{LineSaid, Set};
use lr_rules::{ConfKind, Format, Listed, Path, Phase, Rule, Text};
use std::mem;

impl Draft {
    // Ends the definition: the rule of its file, words and fields, and of the format of its dates.
    fn end_with(&mut self, file: Path, fresh: Fields, dated: Option<Format>) -> Rule
        requires { dated ≡ format_of self.old.fields }
        ensures rule { result ≡ rule_of file (first_of (state_of self.old)) self.old.words.items self.old.fields }
        ensures state { state_of self.new ≡ record (state_of self.old)
            { place = place.Outside; words = []; first = None; fields = fresh } }
        ensures rules { self.new.rules ≡ self.old.rules }
        ensures rest { SameRest self.old self.new }
    {
        let words = Listed::from_vec(mem::replace(&mut self.words, Vec::new(self.alloc)));
        let fields = mem::replace(&mut self.fields, fresh);
        let line = self.first.take().unwrap_or(0);
        self.place = Place::Outside;
        rule_of(file, line, words, fields, dated)
    }

    /// The line that ends a definition, which gives its rule.
    pub(crate) fn close(&mut self) -> Result<Option<Include>, LayerStop>
        requires { 0 < length (files_of self.old) }
        ensures { Closes self.old self.new (file_of_draft self.old) result }
    {
        let Ok(()) = self.rules.reserve(1) else {
            return Err(LayerStop::Memory);
        };
        let Ok(file) = self.files.top().copy(self.alloc) else {
            return Err(LayerStop::Memory);
        };
        let Ok(fresh) = default_fields(self.alloc) else {
            drop(file);
            return Err(LayerStop::Memory);
        };
        match format_of(self.alloc, &self.fields) {
            Ok(dated) => {
                let rule = self.end_with(file, fresh, dated);
                self.rules.push_reserved(rule);
                Ok(None)
            }
            Err(_) => {
                drop(fresh);
                drop(file);
                Err(LayerStop::Memory)
            }
        }
    }

    // A fault of a line in a definition, which drops it.
    fn drop_for(&mut self, at: u32, kind: ConfKind) -> Result<Option<Include>, LayerStop>
        requires { self.old.place ≡ place.Good }
        ensures { SaysInside self.old self.new (file_of_draft self.old) at (says.Bad kind) result }
    {
        self.place = Place::Dropped;
        Err(LayerStop::Conf(at, kind))
    }

    fn script(
        &mut self,
        at: u32,
        phase: Phase,
        text: Text,
        stray: bool,
    ) -> Result<Option<Include>, LayerStop>
        requires { self.old.place ≡ place.Good }
        ensures { SaysInside self.old self.new (file_of_draft self.old) at (says.Script phase text stray) result }
    {
        match script_fault(self.scripts.as_slice(), phase, stray) {
            Some(kind) => {
                drop(text);
                self.drop_for(at, kind)
            }
            None => match self.scripts.push(phase) {
                Ok(()) => {
                    set_field(&mut self.fields, Set::Script(phase, text));
                    Ok(None)
                }
                Err(_) => {
                    drop(text);
                    Err(LayerStop::Memory)
                }
            },
        }
    }

    // A field, with words of an owner behind its value.
    fn set_owned(&mut self, at: u32, set: Set) -> Result<Option<Include>, LayerStop>
        requires { 0 < length (files_of self.old) }
        ensures { SaysInside self.old self.new (file_of_draft self.old) at (says.OwnerPassed set) result }
    {
        let set = self.notice_owner(at, set)?;
        set_field(&mut self.fields, set);
        Ok(None)
    }

    fn pass_inside(&mut self, at: u32, word: Text) -> Result<Option<Include>, LayerStop>
        requires { 0 < length (files_of self.old) }
        ensures { SaysInside self.old self.new (file_of_draft self.old) at (says.Passed word) result }
    {
        self.notice(at, Some(word))?;
        Ok(None)
    }

    fn set_inside(&mut self, at: u32, set: Set) -> Result<Option<Include>, LayerStop>
        ensures { SaysInside self.old self.new (file_of_draft self.old) at (says.Sets set) result }
    {
        set_field(&mut self.fields, set);
        Ok(None)
    }

    /// A line in a definition that doesn't end it.
    pub(crate) fn inside(&mut self, at: u32, said: LineSaid) -> Result<Option<Include>, LayerStop>
        requires place { self.old.place ≡ place.Good }
        requires files { 0 < length (files_of self.old) }
        ensures { SaysInside self.old self.new (file_of_draft self.old) at said result }
    {
        match said {
            LineSaid::Sets(set) => self.set_inside(at, set),
            LineSaid::OwnerPassed(set) => self.set_owned(at, set),
            LineSaid::Script { phase, text, stray } => self.script(at, phase, text, stray),
            LineSaid::Passed(word) => self.pass_inside(at, word),
            LineSaid::Unknown => Err(LayerStop::Conf(at, ConfKind::Unknown)),
            LineSaid::Bad(kind) => self.drop_for(at, kind),
            LineSaid::Names(_names) => Ok(None),
            LineSaid::Include(_path) => Ok(None),
            LineSaid::Taboo {
                patterns: _,
                items: _items,
            } => Ok(None),
            LineSaid::Open | LineSaid::Close | LineSaid::Quiet | LineSaid::BadNames(_) => Ok(None),
        }
    }
}
