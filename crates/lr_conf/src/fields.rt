// The fields that lines set.
ghost use Rattle.std.specs.Prelude.{◌≡◌, Some, IfOk};
ghost use Rattle.lr_conf.specs.Setting.{with_set, with_script, without, default_fields};

use lr_forms::Set;
use lr_rules::{
    Back, Count, Criterion, Listed, Make, Memory, Path, Phase, Piece, Rule, Scripts, Text, Way,
};
use std::alloc::Global;

/// The fields of a definition, or the defaults that lines outside definitions made.
#[derive(Drop)]
pub struct Fields {
    /// Those of the rule, which so far has no words, no line and no stamp, and `/` in the place of its file.
    pub rule: Rule,
    /// Whether the members have dated names.
    pub dated: bool,
    /// The pieces of a stamp, where a line gives them.
    pub pieces: Option<Listed<Piece>>,
    pub back: Back,
    /// Whether a stamp that stands already gets a serial number, which the naming doesn't do yet.
    pub serial: bool,
}

fn no_scripts() -> Scripts
    ensures { result ≡ default_fields.rule.scripts }
{
    Scripts {
        first: None,
        pre: None,
        post: None,
        last: None,
        preremove: None,
    }
}

// A rule that no line set a field of.
fn default_rule(alloc: Global, file: Path) -> Rule
    ensures { result ≡ record (default_fields.rule) { file = file } }
{
    Rule {
        file,
        line: 0,
        words: Listed::new(alloc),
        criterion: Criterion::Size(1_048_576),
        count: Count::Keep(0),
        maxage: None,
        minage: None,
        minsize: None,
        maxsize: None,
        ifempty: true,
        missingok: false,
        ignore_duplicates: false,
        start: 1,
        extension: None,
        addextension: None,
        olddir: None,
        createolddir: Make::No,
        way: Way::Rename,
        create: Make::No,
        mail: None,
        mailfirst: false,
        shared: false,
        scripts: no_scripts(),
        dated: None,
    }
}

/// The fields that no line set.
pub fn default_fields(alloc: Global) -> Result<Fields, Memory>
    ensures { IfOk result (λ fields. fields ≡ default_fields) }
{
    match Path::new(alloc, b"/") {
        Ok(file) => Ok(Fields {
            rule: default_rule(alloc, file),
            dated: false,
            pieces: None,
            back: Back::Now,
            serial: false,
        }),
        Err(_) => Err(Memory),
    }
}

// Sets a text. What stood in its place is let go here, once and not in each of the cases of a setting.
fn put_text(place: &mut Option<Text>, text: Option<Text>)
    ensures { place.new ≡ text }
{
    *place = text;
}

fn put_pieces(place: &mut Option<Listed<Piece>>, pieces: Listed<Piece>)
    ensures { place.new ≡ Some pieces }
{
    *place = Some(pieces);
}

/// The way, set back to renames where it is this one.
fn without(not: Way, way: Way) -> Way
    ensures { result ≡ without not way }
{
    match (not, way) {
        (Way::Copy, Way::Copy) => Way::Rename,
        (Way::CopyTruncate, Way::CopyTruncate) => Way::Rename,
        (Way::RenameCopy, Way::RenameCopy) => Way::Rename,
        _ => way,
    }
}

fn set_script(scripts: &mut Scripts, phase: Phase, text: Text)
    ensures { scripts.new ≡ with_script phase text scripts.old }
{
    match phase {
        Phase::First => put_text(&mut scripts.first, Some(text)),
        Phase::Pre => put_text(&mut scripts.pre, Some(text)),
        Phase::Post => put_text(&mut scripts.post, Some(text)),
        Phase::Last => put_text(&mut scripts.last, Some(text)),
        Phase::Preremove => put_text(&mut scripts.preremove, Some(text)),
        // A mail has no script.
        Phase::Mail => {}
    }
}

/// Sets a field.
pub fn set_field(fields: &mut Fields, set: Set)
    ensures { fields.new ≡ with_set fields.old set }
{
    match set {
        Set::Criterion(criterion) => fields.rule.criterion = criterion,
        Set::Count(count) => fields.rule.count = count,
        Set::MaxAge(days) => fields.rule.maxage = Some(days),
        Set::MinAge(days) => fields.rule.minage = Some(days),
        Set::MinSize(size) => fields.rule.minsize = Some(size),
        Set::MaxSize(size) => fields.rule.maxsize = Some(size),
        Set::IfEmpty(ifempty) => fields.rule.ifempty = ifempty,
        Set::MissingOk(missingok) => fields.rule.missingok = missingok,
        Set::IgnoreDuplicates => fields.rule.ignore_duplicates = true,
        Set::Start(start) => fields.rule.start = start,
        Set::Extension(ending) => put_text(&mut fields.rule.extension, Some(ending)),
        Set::AddExtension(ending) => put_text(&mut fields.rule.addextension, Some(ending)),
        Set::Olddir(olddir) => put_text(&mut fields.rule.olddir, olddir),
        Set::CreateOlddir(make) => fields.rule.createolddir = make,
        Set::Way(way) => fields.rule.way = way,
        Set::NotWay(not) => fields.rule.way = without(not, fields.rule.way),
        Set::Create(make) => fields.rule.create = make,
        Set::Mail(mail) => put_text(&mut fields.rule.mail, mail),
        Set::MailFirst(mailfirst) => fields.rule.mailfirst = mailfirst,
        Set::Shared(shared) => fields.rule.shared = shared,
        Set::Script(phase, text) => set_script(&mut fields.rule.scripts, phase, text),
        Set::Dated(dated) => fields.dated = dated,
        Set::DateFormat(pieces) => put_pieces(&mut fields.pieces, pieces),
        Set::Back(back) => fields.back = back,
        Set::Serial(serial) => fields.serial = serial,
    }
}
