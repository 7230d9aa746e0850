// The lines of the opening.
use crate::cursor::Cursor;
use crate::draft::Draft;
use crate::key::StartKey;
use crate::row::{Start, StartFile};
use lr_rows_line::Trouble;
use lr_rules::Path;
use std::alloc::Global;

/// The moment of a row, and that of its files, where it says nothing else: 2024-01-14 00:05:00 UTC.
pub const NOW: i64 = 1_705_190_700;

static DIRS: [&[u8]; 6] = [
    b"/",
    b"/etc",
    b"/v",
    b"/var",
    b"/var/lib",
    b"/var/lib/logrotate",
];

fn standard_dirs(alloc: Global) -> Result<Vec<Path>, Trouble> {
    let mut dirs = Vec::new(alloc);
    for bytes in &DIRS {
        dirs.push(Path::new(alloc, bytes)?)?;
    }
    Ok(dirs)
}

/// The standard directories, and nothing else.
pub fn standard_start(alloc: Global) -> Result<Start, Trouble> {
    Ok(Start {
        dirs: standard_dirs(alloc)?,
        others: Vec::new(alloc),
        files: Vec::new(alloc),
        names: Vec::new(alloc),
        nameless: Vec::new(alloc),
        holds: Vec::new(alloc),
        ends: Vec::new(alloc),
        piece: 4096,
    })
}

// A file that is all synced, modified now and without a mode.
fn plain_file(cursor: &mut Cursor) -> Result<StartFile, Trouble> {
    let path = cursor.path()?;
    let bytes = cursor.bytes()?;
    Ok(StartFile {
        path,
        synced: bytes.len() as u64,
        bytes,
        mtime: NOW,
        mode: None,
    })
}

fn take_options(file: &mut StartFile, cursor: &mut Cursor) -> Result<(), Trouble> {
    if cursor.takes(b"mtime") {
        file.mtime = cursor.seconds()?;
    }
    if cursor.takes(b"synced") {
        file.synced = cursor.number()?;
    }
    if cursor.takes(b"mode") {
        file.mode = Some(cursor.octal()?);
    }
    Ok(())
}

impl Draft {
    fn add_file(&mut self, cursor: &mut Cursor) -> Result<(), Trouble> {
        let mut file = plain_file(cursor)?;
        take_options(&mut file, cursor)?;
        self.row.start.files.push(file)?;
        Ok(())
    }

    fn set_conf(&mut self, cursor: &mut Cursor) -> Result<(), Trouble> {
        self.conf = Some(cursor.bytes()?);
        Ok(())
    }

    fn add_dir(&mut self, cursor: &mut Cursor) -> Result<(), Trouble> {
        let path = cursor.path()?;
        self.row.start.dirs.push(path)?;
        Ok(())
    }

    fn lack_dir(&mut self, cursor: &mut Cursor) -> Result<(), Trouble> {
        let word = cursor.word()?;
        let count = self.row.start.dirs.len();
        self.row.start.dirs.retain(|dir| !dir.has_bytes(word));
        if self.row.start.dirs.len() == count {
            return Err(Trouble::Odd("no such directory"));
        }
        Ok(())
    }

    fn add_other(&mut self, cursor: &mut Cursor) -> Result<(), Trouble> {
        let path = cursor.path()?;
        self.row.start.others.push(path)?;
        Ok(())
    }

    fn add_end(&mut self, cursor: &mut Cursor) -> Result<(), Trouble> {
        let ended = cursor.ended()?;
        self.row.start.ends.push(ended)?;
        Ok(())
    }

    fn set_piece(&mut self, cursor: &mut Cursor) -> Result<(), Trouble> {
        self.row.start.piece = cursor.number()? as usize;
        Ok(())
    }

    fn add_name(&mut self, cursor: &mut Cursor) -> Result<(), Trouble> {
        let path = cursor.path()?;
        let place = cursor.number()?;
        self.row.start.names.push((path, place))?;
        Ok(())
    }

    fn add_nameless(&mut self, cursor: &mut Cursor) -> Result<(), Trouble> {
        let bytes = cursor.bytes()?;
        self.row.start.nameless.push(bytes)?;
        Ok(())
    }

    fn add_hold(&mut self, cursor: &mut Cursor) -> Result<(), Trouble> {
        let writer = cursor.small()?;
        let place = cursor.number()?;
        self.row.start.holds.push((writer, place))?;
        Ok(())
    }

    /// Takes a line of the opening.
    pub fn take_start(&mut self, key: StartKey, cursor: &mut Cursor) -> Result<(), Trouble> {
        match key {
            StartKey::File => self.add_file(cursor),
            StartKey::Conf => self.set_conf(cursor),
            StartKey::Dir => self.add_dir(cursor),
            StartKey::NoDir => self.lack_dir(cursor),
            StartKey::Other => self.add_other(cursor),
            StartKey::Ends => self.add_end(cursor),
            StartKey::Piece => self.set_piece(cursor),
            StartKey::Name => self.add_name(cursor),
            StartKey::Nameless => self.add_nameless(cursor),
            StartKey::Hold => self.add_hold(cursor),
        }
    }
}
