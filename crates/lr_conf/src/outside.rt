// Lines outside definitions.
ghost use Rattle.std.specs.Prelude.{◌≡◌, ◌<◌, [], ◌++◌, Some, None, OnOk, OnErr, IfOk, length};
ghost use Rattle.lr_conf.specs.declared.place.Place.TheVariants as place;
ghost use Rattle.lr_forms.specs.declared.said.LineSaid.TheVariants as says;
ghost use Rattle.lr_conf.specs.Meaning.{stands, or_line};
ghost use Rattle.lr_conf.specs.Internal.Draft.{Speaks, Noticed, Banned, SameRest, Aside, Unchanged, Settled, answer_of};
ghost use Rattle.lr_conf.specs.Internal.Draft.{file_of_draft, files_of, without_names, state_of};

use crate::copies::copy_fields;
use crate::draft::Draft;
use crate::fields::set_field;
use crate::place::Place;
use crate::stop::{Include, LayerStop};
use crate::taboo::change_list;
use lr_forms::{LineSaid, Set};
use lr_rules::{ConfKind, Listed, Memory, Notice, Path, Text};
use lr_words::TabooItems;
use std::mem;

impl Draft {
    /// Gives the notice of a word that is passed over, or of words that name an owner.
    pub(crate) fn notice(&mut self, at: u32, word: Option<Text>) -> Result<(), Memory>
        requires { 0 < length (files_of self.old) }
        ensures ok { OnOk result (Noticed self.old self.new (record { file = file_of_draft self.old; line = at; word = word })) }
        ensures err { OnErr result (Unchanged self.old self.new) }
    {
        match self.files.top().copy(self.alloc) {
            Ok(file) => {
                self.notices.push(Notice {
                    file,
                    line: at,
                    word,
                })?;
                Ok(())
            }
            Err(_) => {
                drop(word);
                Err(Memory)
            }
        }
    }

    /// The same for a field with words of an owner behind its value, which comes back where there is memory.
    pub(crate) fn notice_owner(&mut self, at: u32, set: Set) -> Result<Set, Memory>
        requires { 0 < length (files_of self.old) }
        ensures same { IfOk result (λ back. back ≡ set) }
        ensures ok { OnOk result (Noticed self.old self.new (record { file = file_of_draft self.old; line = at; word = None })) }
        ensures err { OnErr result (Unchanged self.old self.new) }
    {
        self.notice(at, None)?;
        Ok(set)
    }

    /// Lets go of pending names, and gives the line of the first.
    pub(crate) fn settle(&mut self) -> Option<u32>
        ensures first { result ≡ self.old.first }
        ensures state { state_of self.new ≡ without_names (state_of self.old) }
        ensures rest { SameRest self.old self.new }
    {
        self.words.clear();
        self.first.take()
    }

    // A definition begins with the fields that lines outside set, and without scripts.
    fn begin(&mut self) -> Result<(), Memory>
        ensures state { OnOk result (state_of self.new ≡ record (state_of self.old)
            { place = place.Good; fields = self.old.defaults; scripts = [] }) }
        ensures rest { OnOk result (SameRest self.old self.new) }
        ensures err { OnErr result (Unchanged self.old self.new) }
    {
        let fields = copy_fields(self.alloc, &self.defaults)?;
        self.scripts.clear();
        drop(mem::replace(&mut self.fields, fields));
        self.place = Place::Good;
        Ok(())
    }

    // Adds names to those that are pending.
    fn add_names(&mut self, at: u32, names: Listed<Text>) -> Result<(), Memory>
        ensures state { OnOk result (state_of self.new ≡ record (state_of self.old)
            { words = self.old.words.items ++ names; first = Some (or_line self.old.first at) }) }
        ensures rest { OnOk result (SameRest self.old self.new) }
        ensures err { OnErr result (Unchanged self.old self.new) }
    {
        let added = self.words.append(&mut names.into_vec());
        match added {
            Ok(()) => {
                if self.first.is_none() {
                    self.first = Some(at);
                }
                Ok(())
            }
            Err(_) => Err(Memory),
        }
    }

    /// Names of logs.
    fn names(
        &mut self,
        at: u32,
        brace: bool,
        names: Listed<Text>,
    ) -> Result<Option<Include>, LayerStop>
        requires { self.old.place ≡ place.Outside }
        ensures { Speaks self.old self.new (file_of_draft self.old) (stands at brace (says.Names names)) result }
    {
        let before = self.words.len();
        let first = self.first;
        self.add_names(at, names)?;
        if brace && let Err(_) = self.begin() {
            self.words.truncate(before);
            self.first = first;
            return Err(LayerStop::Memory);
        }
        Ok(None)
    }

    /// A brace alone: it opens a definition of the names that are pending.
    fn open(&mut self, at: u32, brace: bool) -> Result<Option<Include>, LayerStop>
        requires { self.old.place ≡ place.Outside }
        ensures { Speaks self.old self.new (file_of_draft self.old) (stands at brace says.Open) result }
    {
        if self.first.is_none() {
            return self.aside(at, brace, ConfKind::Stray);
        }
        if brace {
            self.begin()?;
        }
        Ok(None)
    }

    /// A line with a fault that leaves pending names; with a brace it opens a definition, which is dropped.
    fn aside(&mut self, at: u32, brace: bool, kind: ConfKind) -> Result<Option<Include>, LayerStop>
        requires { self.old.place ≡ place.Outside }
        ensures { Aside self.old self.new at brace kind result }
    {
        if brace {
            let _first = self.settle();
            self.place = Place::Dropped;
        }
        Err(LayerStop::Conf(at, kind))
    }

    // Lets go of pending names, which have no brace, and gives the line of the first. A brace opens a definition that is
    // dropped.
    fn leave_names(&mut self, brace: bool) -> Option<u32>
        requires { self.old.place ≡ place.Outside }
        ensures first { result ≡ self.old.first }
        ensures settled { Settled self.old self.new brace }
    {
        let first = self.settle();
        if brace {
            self.place = Place::Dropped;
        }
        first
    }

    // Lets go of pending names, and tells them with the line's own fault, where it has one.
    fn leave(
        &mut self,
        at: u32,
        brace: bool,
        own: Option<ConfKind>,
    ) -> Result<Option<Include>, LayerStop>
        requires { self.old.place ≡ place.Outside }
        ensures answer { result ≡ answer_of self.old.first at own }
        ensures settled { Settled self.old self.new brace }
    {
        match (self.leave_names(brace), own) {
            (None, None) => Ok(None),
            (None, Some(kind)) => Err(LayerStop::Conf(at, kind)),
            (Some(first), None) => Err(LayerStop::Conf(first, ConfKind::NoBrace)),
            (Some(first), Some(kind)) => Err(LayerStop::NoBraceAnd(first, at, kind)),
        }
    }

    /// A `}`, which is stray where no names are pending.
    #[tactic(auto, using(crate::proofs::Spoken::close))]
    fn lone_close(&mut self, at: u32, brace: bool) -> Result<Option<Include>, LayerStop>
        requires { self.old.place ≡ place.Outside }
        ensures { Speaks self.old self.new (file_of_draft self.old) (stands at brace says.Close) result }
    {
        let own = match self.first {
            None => Some(ConfKind::Stray),
            Some(_) => None,
        };
        self.leave(at, brace, own)
    }

    /// A word that is passed over.
    #[tactic(auto, using(crate::proofs::Spoken::passed))]
    fn pass_over(&mut self, at: u32, brace: bool, word: Text) -> Result<Option<Include>, LayerStop>
        requires place { self.old.place ≡ place.Outside }
        requires files { 0 < length (files_of self.old) }
        ensures { Speaks self.old self.new (file_of_draft self.old) (stands at brace (says.Passed word)) result }
    {
        self.notice(at, Some(word))?;
        self.leave(at, brace, None)
    }

    /// A directive that sets a default.
    #[tactic(auto, using(crate::proofs::Spoken::sets))]
    fn sets(&mut self, at: u32, brace: bool, set: Set) -> Result<Option<Include>, LayerStop>
        requires { self.old.place ≡ place.Outside }
        ensures { Speaks self.old self.new (file_of_draft self.old) (stands at brace (says.Sets set)) result }
    {
        set_field(&mut self.defaults, set);
        self.leave(at, brace, None)
    }

    /// One with words of an owner, which are passed over.
    #[tactic(auto, using(crate::proofs::Spoken::owner))]
    fn sets_owned(&mut self, at: u32, brace: bool, set: Set) -> Result<Option<Include>, LayerStop>
        requires place { self.old.place ≡ place.Outside }
        requires files { 0 < length (files_of self.old) }
        ensures { Speaks self.old self.new (file_of_draft self.old) (stands at brace (says.OwnerPassed set)) result }
    {
        let set = self.notice_owner(at, set)?;
        set_field(&mut self.defaults, set);
        self.leave(at, brace, None)
    }

    /// Another file.
    #[tactic(auto, using(crate::proofs::Spoken::include))]
    fn include(&mut self, at: u32, brace: bool, path: Path) -> Result<Option<Include>, LayerStop>
        requires { self.old.place ≡ place.Outside }
        ensures { Speaks self.old self.new (file_of_draft self.old) (stands at brace (says.Include path)) result }
    {
        let include = Include { path, line: at };
        match self.leave_names(brace) {
            None => Ok(Some(include)),
            Some(first) => Err(LayerStop::NoBraceThen(first, include)),
        }
    }

    // The taboo list is that behind a line with these items, which are patterns or endings.
    fn ban(&mut self, patterns: bool, items: TabooItems) -> Result<(), Memory>
        ensures ok { OnOk result (Banned self.old self.new patterns items) }
        ensures err { OnErr result (Unchanged self.old self.new) }
    {
        let TabooItems { items, adding } = items;
        if patterns {
            change_list(self.alloc, &mut self.taboo.patterns, adding, items)
        } else {
            change_list(self.alloc, &mut self.taboo.extensions, adding, items)
        }
    }

    /// A list of what is taboo.
    #[tactic(auto, using(crate::proofs::Spoken::taboo))]
    fn taboos(
        &mut self,
        at: u32,
        brace: bool,
        patterns: bool,
        items: TabooItems,
    ) -> Result<Option<Include>, LayerStop>
        requires { self.old.place ≡ place.Outside }
        ensures { Speaks self.old self.new (file_of_draft self.old) (stands at brace (says.Taboo patterns items)) result }
    {
        self.ban(patterns, items)?;
        self.leave(at, brace, None)
    }

    /// A line outside definitions.
    pub(crate) fn outside(
        &mut self,
        at: u32,
        brace: bool,
        said: LineSaid,
    ) -> Result<Option<Include>, LayerStop>
        requires place { self.old.place ≡ place.Outside }
        requires files { 0 < length (files_of self.old) }
        ensures { Speaks self.old self.new (file_of_draft self.old) (stands at brace said) result }
    {
        match said {
            LineSaid::Names(names) => self.names(at, brace, names),
            LineSaid::Open => self.open(at, brace),
            LineSaid::Unknown => self.aside(at, brace, ConfKind::Unknown),
            LineSaid::BadNames(kind) => self.aside(at, brace, kind),
            LineSaid::Bad(kind) => self.leave(at, brace, Some(kind)),
            LineSaid::Quiet => self.leave(at, brace, None),
            LineSaid::Close => self.lone_close(at, brace),
            LineSaid::Sets(set) => self.sets(at, brace, set),
            LineSaid::OwnerPassed(set) => self.sets_owned(at, brace, set),
            LineSaid::Passed(word) => self.pass_over(at, brace, word),
            // A script stands in definitions alone: no line says one here.
            LineSaid::Script { text: _text, .. } => self.leave(at, brace, None),
            LineSaid::Include(path) => self.include(at, brace, path),
            LineSaid::Taboo { patterns, items } => self.taboos(at, brace, patterns, items),
        }
    }
}
