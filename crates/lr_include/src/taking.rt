// Taking in the pieces of the file that is read.
ghost use Rattle.std.specs.Prelude.{◌≡◌, ◌<◌, ◌∷◌, ◌++◌, [], length, OnOk};
ghost use Rattle.lr_rules.specs.declared.fault.ConfKind.TheVariants as kinds;
ghost use Rattle.lr_conf.specs.Meaning.{conf};
ghost use Rattle.lr_conf.specs.Fold.{entered, file_of_layer};
ghost use Rattle.lr_include.specs.declared.task.ReadPiece.TheVariants as piece;
ghost use Rattle.lr_include.specs.Course.{SameRest, CourseTells, TellsAnswer, TakesPiece, ClosesFile, ToldFault};

use crate::course::Course;
use crate::task::{Ask, ReadPiece, Task};
use lr_conf::{Include, LayerStop};
use lr_lex::Item;
use lr_rules::{ConfKind, Fault, Memory};

impl Course {
    // Tells a fault of the file that is read.
    fn tell(&mut self, line: u32, kind: ConfKind) -> Result<(), Memory>
        requires { 0 < length (entered self.old.layer) }
        ensures layer { OnOk result (self.new.layer ≡ self.old.layer) }
        ensures told { OnOk result (self.new.faults.items ≡ self.old.faults.items
            ++ conf (file_of_layer self.old.layer) kind line ∷ []) }
        ensures rest { OnOk result (SameRest self.old self.new) }
    {
        let file = self.layer.file().copy(self.alloc)?;
        self.faults.push(Fault::Conf { file, line, kind })?;
        Ok(())
    }

    // Puts a file for which a line asks in front of what is still to be read.
    fn ask(&mut self, include: Include) -> Result<(), Memory>
        requires { 0 < length (entered self.old.layer) }
        ensures { OnOk result (CourseTells self.old self.new (file_of_layer self.old.layer) [] (include ∷ [])) }
    {
        let file = self.layer.file().copy(self.alloc)?;
        let Include { path, line } = include;
        self.todo.push(Task::Ask(Ask { file, line, path }))?;
        Ok(())
    }

    // Tells that names have no brace, and a fault of the line that shows it.
    fn tell_both(&mut self, first: u32, line: u32, kind: ConfKind) -> Result<(), Memory>
        requires { 0 < length (entered self.old.layer) }
        ensures { OnOk result (CourseTells self.old self.new (file_of_layer self.old.layer)
            (conf (file_of_layer self.old.layer) kinds.NoBrace first ∷ conf (file_of_layer self.old.layer) kind line ∷ []) []) }
    {
        self.tell(first, ConfKind::NoBrace)?;
        self.tell(line, kind)
    }

    // Tells that names have no brace, and asks for the file of the line that shows it.
    fn tell_and_ask(&mut self, first: u32, include: Include) -> Result<(), Memory>
        requires { 0 < length (entered self.old.layer) }
        ensures { OnOk result (CourseTells self.old self.new (file_of_layer self.old.layer)
            (conf (file_of_layer self.old.layer) kinds.NoBrace first ∷ []) (include ∷ [])) }
    {
        self.tell(first, ConfKind::NoBrace)?;
        self.ask(include)
    }

    // Tells what the layer answered.
    fn tell_answer(&mut self, answer: Result<Option<Include>, LayerStop>) -> Result<(), Memory>
        requires { 0 < length (entered self.old.layer) }
        ensures { OnOk result (TellsAnswer self.old self.new (file_of_layer self.old.layer) answer) }
    {
        match answer {
            Ok(None) => Ok(()),
            Ok(Some(include)) => self.ask(include),
            Err(LayerStop::Conf(line, kind)) => self.tell(line, kind),
            Err(LayerStop::NoBraceAnd(first, line, kind)) => self.tell_both(first, line, kind),
            Err(LayerStop::NoBraceThen(first, include)) => self.tell_and_ask(first, include),
            Err(LayerStop::Memory) => Err(Memory),
        }
    }

    fn take_item(&mut self, item: Item) -> Result<(), Memory>
        requires { 0 < length (entered self.old.layer) }
        ensures { OnOk result (TakesPiece self.old self.new (piece.Item item)) }
    {
        let answer = self.layer.take(item);
        self.tell_answer(answer)
    }

    fn take_fault(&mut self, line: u32, kind: ConfKind) -> Result<(), Memory>
        requires { 0 < length (entered self.old.layer) }
        ensures { OnOk result (TakesPiece self.old self.new (piece.Fault line kind)) }
    {
        self.layer.spoil(line);
        self.tell(line, kind)
    }

    fn close(&mut self) -> Result<(), Memory>
        requires { 0 < length (entered self.old.layer) }
        ensures { OnOk result (ClosesFile self.old self.new) }
    {
        match self.layer.close_file() {
            Some((line, kind)) => self.tell(line, kind),
            None => Ok(()),
        }
    }

    fn take_end(&mut self) -> Result<(), Memory>
        requires { 0 < length (entered self.old.layer) }
        ensures { OnOk result (TakesPiece self.old self.new piece.End) }
    {
        self.close()?;
        self.layer.leave();
        Ok(())
    }

    /// Tells a fault behind what was read so far.
    pub(crate) fn tell_fault(&mut self, fault: Fault) -> Result<(), Memory>
        ensures { OnOk result (ToldFault self.old self.new fault) }
    {
        self.layer.spoil(0);
        self.faults.push(fault)?;
        Ok(())
    }

    fn take_break(&mut self, fault: Fault) -> Result<(), Memory>
        requires { 0 < length (entered self.old.layer) }
        ensures { OnOk result (TakesPiece self.old self.new (piece.Break fault)) }
    {
        self.tell_fault(fault)?;
        self.layer.cut_file();
        self.layer.leave();
        Ok(())
    }

    fn take_open(&mut self, piece: ReadPiece) -> Result<(), Memory>
        requires { 0 < length (entered self.old.layer) }
        ensures { OnOk result (TakesPiece self.old self.new piece) }
    {
        match piece {
            ReadPiece::Item(item) => self.take_item(item),
            ReadPiece::Fault(line, kind) => self.take_fault(line, kind),
            ReadPiece::End => self.take_end(),
            ReadPiece::Break(fault) => self.take_break(fault),
        }
    }

    /// Takes a piece of the file in that is read.
    pub(crate) fn take_piece(&mut self, piece: ReadPiece) -> Result<(), Memory>
        ensures { OnOk result (TakesPiece self.old self.new piece) }
    {
        if self.layer.depth() > 0 {
            return self.take_open(piece);
        }
        drop(piece);
        Ok(())
    }
}
