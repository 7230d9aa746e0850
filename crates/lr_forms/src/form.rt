// What stands behind the word of a directive.
ghost use Rattle.std.specs.Prelude.{◌≡◌};
ghost use Rattle.lr_forms.specs.Forms.{form_of};

use crate::set::Set;
use lr_rules::{Back, Criterion, Make, Way};
use lr_tables::Directive;

/// The one value of a directive, by the field that it sets.
#[derive(Clone, Copy)]
pub enum Value {
    Count,
    Size,
    MinSize,
    MaxSize,
    MinAge,
    MaxAge,
    Start,
    Extension,
    AddExtension,
    Olddir,
    Mail,
    DateFormat,
}

/// What a directive takes, and where it stands.
#[derive(Drop)]
pub enum Form {
    /// Any words: its line is passed over.
    Passed,
    /// A script, in definitions alone.
    Script,
    /// It ends a script, and stands nowhere else.
    Ending,
    /// No value: it sets this.
    Plain(Set),
    /// One value, that sets a field.
    One(Value),
    /// A day of the week, or nothing: `weekly`.
    Day,
    /// A mode, an owner and a group, each of which may be missing: `createolddir`, or else `create`.
    Make { olddir: bool },
    /// A path, outside definitions alone.
    Include,
    /// A list, outside definitions alone: of patterns, or else of endings.
    Taboo { patterns: bool },
}

/// What the directive takes.
pub fn form_of(directive: Directive) -> Form
    ensures { result ≡ form_of directive }
{
    match directive {
        Directive::Allowhardlink
        | Directive::Compress
        | Directive::Compresscmd
        | Directive::Compressext
        | Directive::Compressoptions
        | Directive::Delaycompress
        | Directive::Noallowhardlink
        | Directive::Nocompress
        | Directive::Nodelaycompress
        | Directive::Noshred
        | Directive::Shred
        | Directive::Shredcycles
        | Directive::Su
        | Directive::Uncompresscmd => Form::Passed,
        Directive::Firstaction
        | Directive::Lastaction
        | Directive::Postrotate
        | Directive::Preremove
        | Directive::Prerotate => Form::Script,
        Directive::Endscript => Form::Ending,
        Directive::Include => Form::Include,
        Directive::Tabooext => Form::Taboo { patterns: false },
        Directive::Taboopat => Form::Taboo { patterns: true },
        Directive::Addextension => Form::One(Value::AddExtension),
        Directive::Dateformat => Form::One(Value::DateFormat),
        Directive::Extension => Form::One(Value::Extension),
        Directive::Mail => Form::One(Value::Mail),
        Directive::Maxage => Form::One(Value::MaxAge),
        Directive::Maxsize => Form::One(Value::MaxSize),
        Directive::Minage => Form::One(Value::MinAge),
        Directive::Minsize => Form::One(Value::MinSize),
        Directive::Olddir => Form::One(Value::Olddir),
        Directive::Rotate => Form::One(Value::Count),
        Directive::Size => Form::One(Value::Size),
        Directive::Start => Form::One(Value::Start),
        Directive::Weekly => Form::Day,
        Directive::Create => Form::Make { olddir: false },
        Directive::Createolddir => Form::Make { olddir: true },
        Directive::Hourly => Form::Plain(Set::Criterion(Criterion::Hourly)),
        Directive::Daily => Form::Plain(Set::Criterion(Criterion::Daily)),
        Directive::Monthly => Form::Plain(Set::Criterion(Criterion::Monthly)),
        Directive::Yearly => Form::Plain(Set::Criterion(Criterion::Yearly)),
        Directive::Ifempty => Form::Plain(Set::IfEmpty(true)),
        Directive::Notifempty => Form::Plain(Set::IfEmpty(false)),
        Directive::Missingok => Form::Plain(Set::MissingOk(true)),
        Directive::Nomissingok => Form::Plain(Set::MissingOk(false)),
        Directive::Ignoreduplicates => Form::Plain(Set::IgnoreDuplicates),
        Directive::Noolddir => Form::Plain(Set::Olddir(None)),
        Directive::Nocreateolddir => Form::Plain(Set::CreateOlddir(Make::No)),
        Directive::Copy => Form::Plain(Set::Way(Way::Copy)),
        Directive::Copytruncate => Form::Plain(Set::Way(Way::CopyTruncate)),
        Directive::Nocopy => Form::Plain(Set::NotWay(Way::Copy)),
        Directive::Nocopytruncate => Form::Plain(Set::NotWay(Way::CopyTruncate)),
        Directive::Renamecopy => Form::Plain(Set::Way(Way::RenameCopy)),
        Directive::Norenamecopy => Form::Plain(Set::NotWay(Way::RenameCopy)),
        Directive::Nocreate => Form::Plain(Set::Create(Make::No)),
        Directive::Nomail => Form::Plain(Set::Mail(None)),
        Directive::Mailfirst => Form::Plain(Set::MailFirst(true)),
        Directive::Maillast => Form::Plain(Set::MailFirst(false)),
        Directive::Sharedscripts => Form::Plain(Set::Shared(true)),
        Directive::Nosharedscripts => Form::Plain(Set::Shared(false)),
        Directive::Dateext => Form::Plain(Set::Dated(true)),
        Directive::Nodateext => Form::Plain(Set::Dated(false)),
        Directive::Dateyesterday => Form::Plain(Set::Back(Back::Yesterday)),
        Directive::Datehourago => Form::Plain(Set::Back(Back::HourAgo)),
        Directive::Dateserial => Form::Plain(Set::Serial(true)),
        Directive::Nodateserial => Form::Plain(Set::Serial(false)),
    }
}
