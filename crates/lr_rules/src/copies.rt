// Copies of rules and of namings.
ghost use Rattle.std.specs.Prelude.{◌≡◌, IfOk, option_copied};

use crate::{Format, Listed, Memory, Naming, Path, Rule, Rules, Scripts, Text};
use std::alloc::Global;

/// A copy of the texts.
pub fn copy_texts(alloc: Global, texts: &[Text]) -> Result<Listed<Text>, Memory>
    ensures { IfOk result (λ copy. copy ≡ texts.now) }
{
    let mut copy = Vec::new(alloc);
    for text in texts {
        copy.push(text.copy(alloc)?)?;
    }
    Ok(Listed::from_vec(copy))
}

/// A copy of the paths.
pub fn copy_paths(alloc: Global, paths: &[Path]) -> Result<Listed<Path>, Memory>
    ensures { IfOk result (λ copy. copy ≡ paths.now) }
{
    let mut copy = Vec::new(alloc);
    for path in paths {
        copy.push(path.copy(alloc)?)?;
    }
    Ok(Listed::from_vec(copy))
}

/// A copy of the text, where there is one.
pub fn copy_text(alloc: Global, text: &Option<Text>) -> Result<Option<Text>, Memory>
    ensures { IfOk result (λ copy. copy ≡ text.now) }
{
    match text {
        Some(text) => Ok(Some(text.copy(alloc)?)),
        None => Ok(None),
    }
}

/// A copy of the path, where there is one.
pub fn copy_path(alloc: Global, path: Option<&Path>) -> Result<Option<Path>, Memory>
    ensures { IfOk result (λ copy. copy ≡ option_copied path.entry) }
{
    match path {
        Some(path) => Ok(Some(path.copy(alloc)?)),
        None => Ok(None),
    }
}

// Rules and scripts are copied by parts, each with few ways out of it, and put together where nothing can fail: the
// check of a function grows much faster than the number of values that it may have to let go.

// The scripts before a rotation: `first` and `pre`.
fn copy_early(alloc: Global, scripts: &Scripts) -> Result<(Option<Text>, Option<Text>), Memory>
    ensures { IfOk result (λ copy. (copy.0 ≡ scripts.now.first) × (copy.1 ≡ scripts.now.pre)) }
{
    let first = copy_text(alloc, &scripts.first)?;
    let pre = copy_text(alloc, &scripts.pre)?;
    Ok((first, pre))
}

// The scripts behind one: `post`, `last` and `preremove`.
fn copy_late(
    alloc: Global,
    scripts: &Scripts,
) -> Result<(Option<Text>, Option<Text>, Option<Text>), Memory>
    ensures { IfOk result (λ copy. (copy.0 ≡ scripts.now.post) × (copy.1 ≡ scripts.now.last) × (copy.2 ≡ scripts.now.preremove)) }
{
    let post = copy_text(alloc, &scripts.post)?;
    let last = copy_text(alloc, &scripts.last)?;
    let preremove = copy_text(alloc, &scripts.preremove)?;
    Ok((post, last, preremove))
}

fn copy_scripts(alloc: Global, scripts: &Scripts) -> Result<Scripts, Memory>
    ensures { IfOk result (λ copy. copy ≡ scripts.now) }
{
    let (first, pre) = copy_early(alloc, scripts)?;
    let (post, last, preremove) = copy_late(alloc, scripts)?;
    Ok(Scripts {
        first,
        pre,
        post,
        last,
        preremove,
    })
}

/// A copy of the format, where there is one.
pub fn copy_format(alloc: Global, format: &Option<Format>) -> Result<Option<Format>, Memory>
    ensures { IfOk result (λ copy. copy ≡ format.now) }
{
    match format {
        Some(format) => Ok(Some(Format {
            pieces: Listed::from_vec(format.pieces.as_slice().to_vec(alloc)?),
            back: format.back,
            serial: format.serial,
        })),
        None => Ok(None),
    }
}

// What takes memory of a rule: where it stands, the names of its members, and what is run and written.
#[derive(Drop)]
struct Place {
    file: Path,
    words: Listed<Text>,
}

#[derive(Drop)]
struct Ends {
    extension: Option<Text>,
    addextension: Option<Text>,
    olddir: Option<Text>,
}

#[derive(Drop)]
struct Acts {
    mail: Option<Text>,
    scripts: Scripts,
    dated: Option<Format>,
}

fn copy_place(alloc: Global, rule: &Rule) -> Result<Place, Memory>
    ensures { IfOk result (λ place. (place.file ≡ rule.now.file) × (place.words ≡ rule.now.words)) }
{
    let file = rule.file.copy(alloc)?;
    let words = copy_texts(alloc, rule.words.as_slice())?;
    Ok(Place { file, words })
}

fn copy_ends(alloc: Global, rule: &Rule) -> Result<Ends, Memory>
    ensures { IfOk result (λ ends. (ends.extension ≡ rule.now.extension) × (ends.addextension ≡ rule.now.addextension)
        × (ends.olddir ≡ rule.now.olddir)) }
{
    let extension = copy_text(alloc, &rule.extension)?;
    let addextension = copy_text(alloc, &rule.addextension)?;
    let olddir = copy_text(alloc, &rule.olddir)?;
    Ok(Ends {
        extension,
        addextension,
        olddir,
    })
}

fn copy_acts(alloc: Global, rule: &Rule) -> Result<Acts, Memory>
    ensures { IfOk result (λ acts. (acts.mail ≡ rule.now.mail) × (acts.scripts ≡ rule.now.scripts)
        × (acts.dated ≡ rule.now.dated)) }
{
    let mail = copy_text(alloc, &rule.mail)?;
    let dated = copy_format(alloc, &rule.dated)?;
    let scripts = copy_scripts(alloc, &rule.scripts)?;
    Ok(Acts {
        mail,
        scripts,
        dated,
    })
}

// A rule of these parts, and else as this one.
fn rule_of(rule: &Rule, place: Place, ends: Ends, acts: Acts) -> Rule
    ensures { (place.file ≡ rule.now.file) × (place.words ≡ rule.now.words)
        → (ends.extension ≡ rule.now.extension) × (ends.addextension ≡ rule.now.addextension) × (ends.olddir ≡ rule.now.olddir)
        → (acts.mail ≡ rule.now.mail) × (acts.scripts ≡ rule.now.scripts) × (acts.dated ≡ rule.now.dated)
        → result ≡ rule.now }
{
    Rule {
        file: place.file,
        line: rule.line,
        words: place.words,
        criterion: rule.criterion,
        count: rule.count,
        maxage: rule.maxage,
        minage: rule.minage,
        minsize: rule.minsize,
        maxsize: rule.maxsize,
        ifempty: rule.ifempty,
        missingok: rule.missingok,
        ignore_duplicates: rule.ignore_duplicates,
        start: rule.start,
        extension: ends.extension,
        addextension: ends.addextension,
        olddir: ends.olddir,
        createolddir: rule.createolddir,
        way: rule.way,
        create: rule.create,
        mail: acts.mail,
        mailfirst: rule.mailfirst,
        shared: rule.shared,
        scripts: acts.scripts,
        dated: acts.dated,
    }
}

/// A copy of the rule.
pub fn copy_rule(alloc: Global, rule: &Rule) -> Result<Rule, Memory>
    ensures { IfOk result (λ copy. copy ≡ rule.now) }
{
    let place = copy_place(alloc, rule)?;
    let ends = copy_ends(alloc, rule)?;
    let acts = copy_acts(alloc, rule)?;
    Ok(rule_of(rule, place, ends, acts))
}

impl Naming {
    /// A copy of the naming.
    pub fn copy(&self, alloc: Global) -> Result<Naming, Memory>
        ensures { IfOk result (λ copy. copy ≡ self.now) }
    {
        let dir = self.dir.copy(alloc)?;
        let base = self.base.copy(alloc)?;
        let ext = self.ext.copy(alloc)?;
        let dated = copy_format(alloc, &self.dated)?;
        Ok(Naming {
            dir,
            base,
            ext,
            start: self.start,
            dated,
            aside: self.aside,
        })
    }
}

impl Rules {
    /// A copy of the rules.
    pub fn copy(&self, alloc: Global) -> Result<Rules, Memory>
        ensures { IfOk result (λ copy. copy ≡ self.now) }
    {
        let mut sets = Vec::new(alloc);
        for rule in self.sets.as_slice() {
            sets.push(copy_rule(alloc, rule)?)?;
        }
        Ok(Rules {
            sets: Listed::from_vec(sets),
        })
    }
}
