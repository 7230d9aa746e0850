// The rows of the directives.
ghost use Rattle.std.specs.Prelude.{◌≡◌};
ghost use Rattle.lr_tables.specs.Directives.{directive_table, contents};

use crate::directive::Directive;
use crate::keyed::{Keyed, Row};

macro_rules! rows {
    ($($word:literal => $directive:ident $(undoes $other:ident)?),*) => {
        [$(Row { word: $word, directive: Directive::$directive, undoes: undone!($($other)?) }),*]
    };
}

macro_rules! undone {
    () => { None };
    ($other:ident) => { Some(Directive::$other) };
}

static ROWS: [Row; 67] = rows![
        b"addextension" => Addextension,
        b"allowhardlink" => Allowhardlink,
        b"compress" => Compress,
        b"compresscmd" => Compresscmd,
        b"compressext" => Compressext,
        b"compressoptions" => Compressoptions,
        b"copy" => Copy,
        b"copytruncate" => Copytruncate,
        b"create" => Create,
        b"createolddir" => Createolddir,
        b"daily" => Daily,
        b"dateext" => Dateext,
        b"dateformat" => Dateformat,
        b"datehourago" => Datehourago,
        b"dateserial" => Dateserial,
        b"dateyesterday" => Dateyesterday,
        b"delaycompress" => Delaycompress,
        b"endscript" => Endscript,
        b"extension" => Extension,
        b"firstaction" => Firstaction,
        b"hourly" => Hourly,
        b"ifempty" => Ifempty undoes Notifempty,
        b"ignoreduplicates" => Ignoreduplicates,
        b"include" => Include,
        b"lastaction" => Lastaction,
        b"mail" => Mail,
        b"mailfirst" => Mailfirst undoes Maillast,
        b"maillast" => Maillast undoes Mailfirst,
        b"maxage" => Maxage,
        b"maxsize" => Maxsize,
        b"minage" => Minage,
        b"minsize" => Minsize,
        b"missingok" => Missingok,
        b"monthly" => Monthly,
        b"noallowhardlink" => Noallowhardlink undoes Allowhardlink,
        b"nocompress" => Nocompress undoes Compress,
        b"nocopy" => Nocopy undoes Copy,
        b"nocopytruncate" => Nocopytruncate undoes Copytruncate,
        b"nocreate" => Nocreate undoes Create,
        b"nocreateolddir" => Nocreateolddir undoes Createolddir,
        b"nodateext" => Nodateext undoes Dateext,
        b"nodateserial" => Nodateserial undoes Dateserial,
        b"nodelaycompress" => Nodelaycompress undoes Delaycompress,
        b"nomail" => Nomail undoes Mail,
        b"nomissingok" => Nomissingok undoes Missingok,
        b"noolddir" => Noolddir undoes Olddir,
        b"norenamecopy" => Norenamecopy undoes Renamecopy,
        b"nosharedscripts" => Nosharedscripts undoes Sharedscripts,
        b"noshred" => Noshred undoes Shred,
        b"notifempty" => Notifempty undoes Ifempty,
        b"olddir" => Olddir,
        b"postrotate" => Postrotate,
        b"preremove" => Preremove,
        b"prerotate" => Prerotate,
        b"renamecopy" => Renamecopy,
        b"rotate" => Rotate,
        b"sharedscripts" => Sharedscripts,
        b"shred" => Shred,
        b"shredcycles" => Shredcycles,
        b"size" => Size,
        b"start" => Start,
        b"su" => Su,
        b"tabooext" => Tabooext,
        b"taboopat" => Taboopat,
        b"uncompresscmd" => Uncompresscmd,
        b"weekly" => Weekly,
        b"yearly" => Yearly
];

/// The directives of logrotate(8), those that are passed over among them. No memory is taken.
pub fn directives() -> Keyed<67>
    ensures { contents result.rows.now ≡ directive_table }
{
    Keyed { rows: &ROWS }
}
