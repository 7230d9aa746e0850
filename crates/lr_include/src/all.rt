// Reading the configuration that paths give.
ghost use Rattle.std.specs.Prelude.{◌≡◌, [], false, All, Contains, reverse, Ok, IfOk, OnOk, OnErr};
ghost use Rattle.lr_conf.specs.Meaning.{meaning};
ghost use Rattle.lr_conf.specs.Plain.{IsPlainRule};
ghost use Rattle.lr_rules.specs.declared.fault.CallKind.{CallKind};
ghost use Rattle.lr_rules.specs.declared.path.Path.{Path};
ghost use Rattle.lr_rules.specs.declared.fault.Fault.TheVariants as fault;
ghost use Rattle.lr_host.specs.Told.{Left, Onward, Rose};
ghost use Rattle.lr_include.specs.Readers.{meaning_of, IsConfOrCall};
ghost use Rattle.lr_host.specs.Counted.{calls_in, RoseBy};
ghost use Rattle.lr_include.specs.Stages.{Stage, line_ask, begun, Reads};
ghost use Rattle.lr_include.specs.Course.{StandsAt, GoesOn};
ghost use Rattle.lr_include.specs.Lacking.{LacksFrom, LacksReading};

use crate::course::Course;
use crate::exposed::Exposed;
use crate::reading::Reading;
use crate::task::{Ask, Task};
use lr_conf::Layer;
use lr_host::Host;
use lr_rules::{Listed, Memory, Path};
use std::alloc::Global;

fn ask_of(alloc: Global, path: &Path) -> Result<Task, Memory>
    ensures { IfOk result (λ t. t ≡ line_ask path.now) }
{
    let file = path.copy(alloc)?;
    let path = path.copy(alloc)?;
    Ok(Task::Ask(Ask {
        file,
        line: 0,
        path,
    }))
}

// What the command line asks for is still to be read.
fn asks_of(alloc: Global, paths: &[Path]) -> Result<Vec<Task>, Memory>
    ensures { IfOk result (λ v. reverse v.items ≡ (begun paths.now).todo) }
{
    let mut todo = Vec::new(alloc);
    for path in paths {
        todo.push(ask_of(alloc, path)?)?;
    }
    todo.reverse();
    Ok(todo)
}

impl Course {
    // Reads on by the next task; false where nothing is still to be read.
    fn step<H: Host>(&mut self, host: &mut H) -> Result<bool, Memory>
        ensures told { IfOk result (λ more. (s : Stage) → StandsAt self.old s
            → GoesOn s self.new (H.told host.old) (H.told host.new) (H.counts host.old).faults (H.counts host.new).faults) }
        ensures lacking { OnErr result ((s : Stage) → StandsAt self.old s
            → Left (LacksFrom s) (H.told host.old) (H.told host.new)) }
        ensures none { result ≡ Ok false → self.new.todo.items ≡ [] }
        ensures counts { Onward (H.counts host.old) (H.counts host.new) }
    {
        match self.todo.pop() {
            Some(task) => {
                self.turn(host, task)?;
                Ok(true)
            }
            None => Ok(false),
        }
    }

    // Reads on until nothing is still to be read.
    fn run<H: Host>(&mut self, host: &mut H) -> Result<(), Memory>
        ensures told { OnOk result ((s : Stage) → StandsAt self.old s
            → GoesOn s self.new (H.told host.old) (H.told host.new) (H.counts host.old).faults (H.counts host.new).faults) }
        ensures lacking { OnErr result ((s : Stage) → StandsAt self.old s
            → Left (LacksFrom s) (H.told host.old) (H.told host.new)) }
        ensures none { OnOk result (self.new.todo.items ≡ []) }
        ensures counts { Onward (H.counts host.old) (H.counts host.new) }
    {
        // So often at most: each file, line and name is taken in once, and there aren't as many.
        for _turn in 0..u64::MAX {
            let more = self.step(host)?;
            if !more {
                return Ok(());
            }
        }
        Err(Memory)
    }

    // Nothing is read so far.
    fn begin(alloc: Global, paths: &[Path]) -> Result<Course, Memory>
        ensures { IfOk result (λ c. StandsAt c (begun paths.now)) }
    {
        let todo = asks_of(alloc, paths)?;
        let layer = Layer::new(alloc)?;
        Ok(Course {
            alloc,
            layer,
            faults: Vec::new(alloc),
            files: 4_096,
            bytes: 16_777_216,
            exposed: Exposed::new(alloc),
            todo,
        })
    }

    fn finish(self) -> Reading
        ensures { (s : Stage) → StandsAt self s → meaning_of result ≡ meaning false [] s.lines }
    {
        let Course { layer, faults, .. } = self;
        let (rules, notices) = layer.finish();
        Reading {
            rules,
            notices: Listed::from_vec(notices),
            faults: Listed::from_vec(faults),
        }
    }
}

/// The rules, notices and faults of the configuration that these paths give, in order of reading: of a file its lines, of
/// a directory those of each regular file in it, in order of bytes of their names, but those that the taboo list bars at
/// that moment. What an `include` asks for is read in its place; links are followed.
///
/// At most 8 files are open at once (TooDeep), 4,096 are read (TooManyFiles), 1,048,576 bytes of each and 16,777,216 of
/// all (TooBig). A file that others may write isn't read, which is told once (Writable). A failed call is told, and what
/// was read before it counts.
pub fn read_all<H: Host>(alloc: Global, host: &mut H, paths: &[Path]) -> Result<Reading, Memory>
    ensures told { IfOk result (λ r. Left (Reads paths.now (meaning_of r)) (H.told host.old) (H.told host.new)) }
    ensures lacking { OnErr result (Left (LacksReading paths.now) (H.told host.old) (H.told host.new)) }
    ensures counted { IfOk result (λ r. RoseBy (calls_in r.faults) (H.counts host.old).faults (H.counts host.new).faults) }
    ensures cause { IfOk result (λ r. (kind : CallKind) (path : Path) → Contains r.faults (fault.Call kind path)
        → Rose (H.counts host.old).faults (H.counts host.new).faults) }
    ensures only { IfOk result (λ r. All IsConfOrCall r.faults) }
    ensures plain { IfOk result (λ r. All IsPlainRule r.rules.sets) }
    ensures counts { Onward (H.counts host.old) (H.counts host.new) }
{
    let mut course = Course::begin(alloc, paths)?;
    let ran = course.run(host);
    let reading = course.finish();
    ran?;
    Ok(reading)
}
