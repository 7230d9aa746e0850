// Visits of the paths that are asked for.
ghost use Rattle.std.specs.Prelude.{◌≡◌, ◌<◌, ◌≤◌, ◌+◌, ◌^◌, ◌↔◌, ◌∷◌, ◌++◌, [], true, Some, option_copied, length, reverse, IfOk};
ghost use Rattle.std.specs.Prelude.{OnOk, OnErr};
ghost use Rattle.lr_host.specs.Told.{Left, Onward};
ghost use Rattle.lr_conf.specs.Meaning.{conf};
ghost use Rattle.lr_conf.specs.Fold.{entered};
ghost use Rattle.lr_include.specs.Visits.{IsRead, RoomIsLeft};
ghost use Rattle.lr_include.specs.declared.task.Task.TheVariants as task;
ghost use Rattle.lr_include.specs.Stages.{Stage, is_shallow, room_of, room_for, limit_kind, telling_exposed, line_tasks};
ghost use Rattle.lr_include.specs.Stages.{name_tasks, is_name, behind_names, entering, after_ask, after_name, IsTaboo};
ghost use Rattle.lr_include.specs.Course.{StandsAt, SameButTodo, ToldFault, GoesOn};
ghost use Rattle.lr_include.specs.Lacking.{LacksFrom};

use crate::course::Course;
use crate::part::TextEnd;
use crate::pieces::{last_piece, piece_of};
use crate::task::{Ask, Task};
use crate::visit::{Visit, visit_path};
use lr_host::Host;
use lr_lex::{Item, LexFault};
use lr_rules::{CallKind, ConfKind, Fault, Listed, Memory, Path, PathFault, Text};

/// The bytes of one file that count.
const FILE_LIMIT: usize = 1_048_576;

fn is_name(task: Option<&Task>) -> bool
    ensures { result ≡ is_name (option_copied task.entry) }
{
    match task {
        Some(Task::Name(_)) => true,
        _ => false,
    }
}

impl Course {
    fn shallow(&self) -> bool
        ensures shallow { (s : Stage) → StandsAt self.now s → result ≡ is_shallow s }
        ensures depth { result ≡ true → length (entered self.now.layer) < 8 }
    {
        self.layer.depth() < 8
    }

    // How many bytes of the next file count.
    fn room(&self) -> usize
        ensures room { (s : Stage) → StandsAt self.now s → result ≡ room_of s }
        ensures bound { result + 1 < 2 ^ 32 }
        ensures within { result ≤ self.now.bytes }
    {
        if self.bytes < FILE_LIMIT {
            self.bytes
        } else {
            FILE_LIMIT
        }
    }

    // The room for the next file, where one more may be read.
    fn room_for(&self) -> Option<usize>
        ensures room { (s : Stage) → StandsAt self.now s → result ≡ room_for s }
        ensures depth { RoomIsLeft result → length (entered self.now.layer) < 8 }
        ensures bound { (n : _) → result ≡ Some n → n + 1 < 2 ^ 32 }
    {
        if self.shallow() && self.files > 0 {
            Some(self.room())
        } else {
            None
        }
    }

    fn limit_kind(&self) -> ConfKind
        ensures { (s : Stage) → StandsAt self.now s → result ≡ limit_kind s }
    {
        if self.shallow() {
            ConfKind::TooManyFiles
        } else {
            ConfKind::TooDeep
        }
    }

    // Whether the taboo list bars the last part of the path.
    fn is_barred(&self, path: &Path) -> Result<bool, Memory>
        ensures { IfOk result (λ b. (s : Stage) → StandsAt self.now s → (b ≡ true) ↔ IsTaboo s.lines path.now) }
    {
        let name = path.last_text(self.alloc)?;
        Ok(self.layer.taboo().bars(name.as_str()))
    }

    // Puts an item or a fault of the file in front of what is still to be read.
    fn push_line(&mut self, told: Result<Item, LexFault>) -> Result<(), Memory>
        ensures todo { OnOk result (reverse self.new.todo.items ≡ line_tasks (told ∷ []) ++ reverse self.old.todo.items) }
        ensures rest { OnOk result (SameButTodo self.old self.new) }
    {
        match piece_of(told) {
            Some(piece) => {
                self.todo.push(Task::Line(piece))?;
                Ok(())
            }
            None => Ok(()),
        }
    }

    // Puts what a file told in front of what is still to be read.
    #[tactic(auto, using(crate::proofs::Stages::line_last))]
    fn push_lines(&mut self, told: Listed<Result<Item, LexFault>>) -> Result<(), Memory>
        ensures todo { OnOk result (reverse self.new.todo.items ≡ line_tasks told ++ reverse self.old.todo.items) }
        ensures rest { OnOk result (SameButTodo self.old self.new) }
    {
        let mut told = told.into_vec();
        while let Some(one) = told.pop() {
            self.push_line(one)?;
        }
        Ok(())
    }

    // Puts the path of a name in front of what is still to be read, where it is one.
    fn push_name(&mut self, ask: &Ask, name: &Text) -> Result<(), Memory>
        ensures todo { OnOk result (reverse self.new.todo.items ≡ name_tasks ask.now (name.now ∷ [])
            ++ reverse self.old.todo.items) }
        ensures rest { OnOk result (SameButTodo self.old self.new) }
    {
        match ask.path.join(self.alloc, name.bytes()) {
            Ok(path) => {
                let file = ask.file.copy(self.alloc)?;
                let line = ask.line;
                self.todo.push(Task::Name(Ask { file, line, path }))?;
                Ok(())
            }
            Err(PathFault::Memory) => Err(Memory),
            Err(_) => Ok(()),
        }
    }

    // Puts the names of a directory in front of what is still to be read.
    #[tactic(auto, using(crate::proofs::Stages::name_last))]
    fn push_names(&mut self, ask: &Ask, names: Listed<Text>) -> Result<(), Memory>
        ensures todo { OnOk result (reverse self.new.todo.items ≡ name_tasks ask.now names ++ reverse self.old.todo.items) }
        ensures rest { OnOk result (SameButTodo self.old self.new) }
    {
        let mut names = names.into_vec();
        while let Some(name) = names.pop() {
            self.push_name(ask, &name)?;
        }
        Ok(())
    }

    // Passes over the other names of the directory.
    fn pass_names(&mut self)
        ensures todo { reverse self.new.todo.items ≡ behind_names (reverse self.old.todo.items) }
        ensures rest { SameButTodo self.old self.new }
    {
        while is_name(self.todo.last()) {
            drop(self.todo.pop());
        }
    }

    // Enters the file, and puts its pieces in front of what is still to be read.
    fn enter(
        &mut self,
        file: Path,
        told: Listed<Result<Item, LexFault>>,
        size: usize,
        how: TextEnd,
    ) -> Result<(), Memory>
        requires depth { length (entered self.old.layer) < 8 }
        ensures { OnOk result ((s : Stage) → StandsAt self.old s → StandsAt self.new (entering s file told size how s.todo)) }
    {
        let room = self.room();
        let last = last_piece(self.alloc, &file, how)?;
        self.layer.enter(file);
        self.files = self.files.saturating_sub(1);
        self.bytes -= if size < room { size } else { room };
        self.todo.push(Task::Line(last))?;
        self.push_lines(told)
    }

    // Tells a fault of a line that asks, or of a path of the command line.
    fn tell_at(&mut self, ask: Ask, kind: ConfKind) -> Result<(), Memory>
        ensures { OnOk result (ToldFault self.old self.new (conf ask.file kind ask.line)) }
    {
        let Ask { file, line, .. } = ask;
        self.tell_fault(Fault::Conf { file, line, kind })
    }

    // Tells that others may write the file, where that wasn't told before.
    fn tell_exposed(&mut self, file: Path) -> Result<(), Memory>
        ensures { OnOk result ((s : Stage) → StandsAt self.old s → StandsAt self.new (telling_exposed s file s.todo)) }
    {
        let told = self.exposed.has(&file);
        if told {
            return Ok(());
        }
        self.exposed.add(&file)?;
        self.tell_fault(Fault::Conf {
            file,
            line: 0,
            kind: ConfKind::Writable,
        })
    }

    fn after_ask(&mut self, ask: Ask, visit: Visit) -> Result<(), Memory>
        requires { IsRead visit → length (entered self.old.layer) < 8 }
        ensures { OnOk result ((s : Stage) → StandsAt self.old s → StandsAt self.new (after_ask s ask visit s.todo)) }
    {
        match visit {
            Visit::Unseen => self.tell_fault(Fault::Call(CallKind::Look, ask.path)),
            Visit::Nothing => self.tell_at(ask, ConfKind::NoFile),
            Visit::File => {
                let kind = self.limit_kind();
                self.tell_at(ask, kind)
            }
            Visit::Exposed => self.tell_exposed(ask.path),
            Visit::Dir => self.tell_at(ask, ConfKind::TooDeep),
            Visit::Unlisted => self.tell_fault(Fault::Call(CallKind::List, ask.path)),
            Visit::Holds(names) => self.push_names(&ask, names),
            Visit::Reads(told, size, how) => self.enter(ask.path, told, size, how),
        }
    }

    fn after_name(&mut self, ask: Ask, visit: Visit) -> Result<(), Memory>
        requires { IsRead visit → length (entered self.old.layer) < 8 }
        ensures { OnOk result ((s : Stage) → StandsAt self.old s → StandsAt self.new (after_name s ask visit s.todo)) }
    {
        match visit {
            Visit::Unseen => self.tell_fault(Fault::Call(CallKind::Look, ask.path)),
            Visit::File => {
                self.pass_names();
                let kind = self.limit_kind();
                self.tell_at(ask, kind)
            }
            Visit::Exposed => self.tell_exposed(ask.path),
            Visit::Reads(told, size, how) => self.enter(ask.path, told, size, how),
            _ => Ok(()),
        }
    }

    // Visits a path that a line or the command line asks for.
    fn turn_ask<H: Host>(&mut self, host: &mut H, ask: Ask) -> Result<(), Memory>
        ensures told { OnOk result ((s : Stage) → StandsAt self.old s
            → GoesOn (record s { todo = task.Ask ask ∷ s.todo }) self.new (H.told host.old) (H.told host.new)
            (H.counts host.old).faults (H.counts host.new).faults) }
        ensures lacking { OnErr result ((s : Stage) → StandsAt self.old s
            → Left (LacksFrom (record s { todo = task.Ask ask ∷ s.todo })) (H.told host.old) (H.told host.new)) }
        ensures counts { Onward (H.counts host.old) (H.counts host.new) }
    {
        let lists = self.shallow();
        let room = self.room_for();
        let visit = visit_path(self.alloc, host, &ask.path, lists, room)?;
        self.after_ask(ask, visit)
    }

    // Visits a name in a directory, where it isn't barred.
    fn turn_name<H: Host>(&mut self, host: &mut H, ask: Ask) -> Result<(), Memory>
        ensures told { OnOk result ((s : Stage) → StandsAt self.old s
            → GoesOn (record s { todo = task.Name ask ∷ s.todo }) self.new (H.told host.old) (H.told host.new)
            (H.counts host.old).faults (H.counts host.new).faults) }
        ensures lacking { OnErr result ((s : Stage) → StandsAt self.old s
            → Left (LacksFrom (record s { todo = task.Name ask ∷ s.todo })) (H.told host.old) (H.told host.new)) }
        ensures counts { Onward (H.counts host.old) (H.counts host.new) }
    {
        let barred = self.is_barred(&ask.path)?;
        if barred {
            return Ok(());
        }
        let room = self.room_for();
        let visit = visit_path(self.alloc, host, &ask.path, false, room)?;
        self.after_name(ask, visit)
    }

    /// Reads on by a task that was the next.
    pub(crate) fn turn<H: Host>(&mut self, host: &mut H, task: Task) -> Result<(), Memory>
        ensures told { OnOk result ((s : Stage) → StandsAt self.old s
            → GoesOn (record s { todo = task ∷ s.todo }) self.new (H.told host.old) (H.told host.new) (H.counts host.old).faults
            (H.counts host.new).faults) }
        ensures lacking { OnErr result ((s : Stage) → StandsAt self.old s
            → Left (LacksFrom (record s { todo = task ∷ s.todo })) (H.told host.old) (H.told host.new)) }
        ensures counts { Onward (H.counts host.old) (H.counts host.new) }
    {
        match task {
            Task::Line(piece) => self.take_piece(piece),
            Task::Ask(ask) => self.turn_ask(host, ask),
            Task::Name(ask) => self.turn_name(host, ask),
        }
    }
}
