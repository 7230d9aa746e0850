// Taking a line in, by where it stands.
ghost use Rattle.std.specs.Prelude.{◌≡◌, ◌<◌, [], length};
ghost use Rattle.lr_conf.specs.declared.place.Place.TheVariants as place;
ghost use Rattle.lr_conf.specs.Meaning.{Read, Cut};
ghost use Rattle.lr_conf.specs.Internal.Draft.{Steps, Stepped, EndsFile, file_of_draft, files_of};

use crate::draft::Draft;
use crate::place::Place;
use crate::stop::{Include, LayerStop};
use lr_forms::{closes, has_brace, line_of, say};
use lr_lex::Item;
use lr_rules::ConfKind;

impl Draft {
    fn take_outside(&mut self, item: Item) -> Result<Option<Include>, LayerStop>
        requires place { self.old.place ≡ place.Outside }
        requires files { 0 < length (files_of self.old) }
        ensures { Steps self.old self.new (file_of_draft self.old) (Read (file_of_draft self.old) item) result }
    {
        let at = line_of(&item);
        let brace = has_brace(&item);
        let said = say(self.alloc, item, false)?;
        self.outside(at, brace, said)
    }

    fn take_inside(&mut self, item: Item) -> Result<Option<Include>, LayerStop>
        requires place { self.old.place ≡ place.Good }
        requires files { 0 < length (files_of self.old) }
        ensures { Steps self.old self.new (file_of_draft self.old) (Read (file_of_draft self.old) item) result }
    {
        if closes(&item) {
            drop(item);
            return self.close();
        }
        let at = line_of(&item);
        let said = say(self.alloc, item, true)?;
        self.inside(at, said)
    }

    fn take_dropped(&mut self, item: Item) -> Result<Option<Include>, LayerStop>
        requires { self.old.place ≡ place.Dropped }
        ensures { Steps self.old self.new (file_of_draft self.old) (Read (file_of_draft self.old) item) result }
    {
        let closes = closes(&item);
        drop(item);
        if closes {
            let _first = self.settle();
            self.place = Place::Outside;
        }
        Ok(None)
    }

    /// Takes an item in.
    pub(crate) fn take_in(&mut self, item: Item) -> Result<Option<Include>, LayerStop>
        requires { 0 < length (files_of self.old) }
        ensures { Steps self.old self.new (file_of_draft self.old) (Read (file_of_draft self.old) item) result }
    {
        match self.place {
            Place::Outside => self.take_outside(item),
            Place::Good => self.take_inside(item),
            Place::Dropped => self.take_dropped(item),
        }
    }

    /// Takes in that the reading of the file breaks off.
    pub(crate) fn break_off(&mut self)
        ensures { Stepped self.old self.new Cut [] [] }
    {
        let _first = self.settle();
        self.place = Place::Outside;
    }

    /// Takes the end of the file in.
    pub(crate) fn end_file(&mut self) -> Option<(u32, ConfKind)>
        ensures { EndsFile self.old self.new (file_of_draft self.old) result }
    {
        let place = self.place;
        let first = self.settle();
        self.place = Place::Outside;
        match place {
            Place::Dropped => None,
            Place::Good => Some((first.unwrap_or(0), ConfKind::NoBrace)),
            Place::Outside => match first {
                Some(at) => Some((at, ConfKind::NoBrace)),
                None => None,
            },
        }
    }
}
