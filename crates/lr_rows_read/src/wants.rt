// The lines of what is wanted of a call.
use crate::called::called_behind;
use crate::cursor::Cursor;
use crate::draft::add_text;
use crate::key::WantKey;
use crate::row::{Once, Wanted};
use lr_rows_line::Trouble;
use std::alloc::Global;

/// A text that lines of a row have, a line for each.
#[derive(Clone, Copy)]
pub enum Shown {
    Printed,
    Changes,
    Entries,
}

/// Status 0, nothing printed, no file and no directory more.
pub fn standard_wanted(alloc: Global) -> Wanted {
    Wanted {
        status: Some(0),
        printed: Some(Vec::new(alloc)),
        left: Vec::new(alloc),
        is_alone: false,
        dirs: Vec::new(alloc),
        once: Vec::new(alloc),
        changes: None,
        told: None,
        lines: Vec::new(alloc),
        tells_out: false,
    }
}

impl Wanted {
    fn set_status(&mut self, cursor: &mut Cursor) -> Result<(), Trouble> {
        self.status = Some(cursor.status()?);
        Ok(())
    }

    fn add_left(&mut self, cursor: &mut Cursor) -> Result<(), Trouble> {
        let path = cursor.path()?;
        let bytes = cursor.bytes()?;
        self.left.push((path, bytes))?;
        Ok(())
    }

    fn add_dir(&mut self, cursor: &mut Cursor) -> Result<(), Trouble> {
        let path = cursor.path()?;
        self.dirs.push(path)?;
        Ok(())
    }

    fn add_once(
        &mut self,
        cursor: &mut Cursor,
        is_needed: bool,
        may_repeat: bool,
    ) -> Result<(), Trouble> {
        let bytes = cursor.bytes()?;
        let before = if is_needed {
            called_behind(cursor, b"before")?
        } else {
            None
        };
        self.once.push(Once {
            bytes,
            is_needed,
            may_repeat,
            before,
        })?;
        Ok(())
    }

    fn set_printed(&mut self, cursor: &mut Cursor) -> Result<(), Trouble> {
        self.printed = Some(cursor.bytes()?);
        Ok(())
    }

    fn add_lines(&mut self, cursor: &mut Cursor) -> Result<(), Trouble> {
        let count = cursor.number()?;
        let end = cursor.bytes()?;
        self.lines.push((count, end))?;
        Ok(())
    }

    fn want_out(&mut self) -> Result<(), Trouble> {
        self.tells_out = true;
        Ok(())
    }

    fn want_any_text(&mut self) -> Result<(), Trouble> {
        self.printed = None;
        Ok(())
    }

    fn want_any_report(&mut self) -> Result<(), Trouble> {
        self.status = None;
        self.want_any_text()
    }

    fn want_no_changes(&mut self, alloc: Global) -> Result<(), Trouble> {
        self.changes = Some(Vec::new(alloc));
        Ok(())
    }

    fn want_no_calls(&mut self, alloc: Global) -> Result<(), Trouble> {
        self.told = Some(Vec::new(alloc));
        Ok(())
    }

    fn leave_alone(&mut self) -> Result<(), Trouble> {
        self.is_alone = true;
        Ok(())
    }

    /// Takes a line of what is wanted.
    pub fn take(&mut self, key: WantKey, cursor: &mut Cursor) -> Result<(), Trouble> {
        match key {
            WantKey::Status => self.set_status(cursor),
            WantKey::Left => self.add_left(cursor),
            WantKey::LeftDir => self.add_dir(cursor),
            WantKey::Once => self.add_once(cursor, true, false),
            WantKey::Most => self.add_once(cursor, false, false),
            WantKey::Some => self.add_once(cursor, true, true),
            WantKey::Prints => self.set_printed(cursor),
            WantKey::PrintsAny => self.want_any_text(),
            WantKey::ReportAny => self.want_any_report(),
            WantKey::ChangesNothing => self.want_no_changes(cursor.alloc),
            WantKey::CallsNothing => self.want_no_calls(cursor.alloc),
            WantKey::LeftAlone => self.leave_alone(),
            WantKey::Lines => self.add_lines(cursor),
            WantKey::TellsOut => self.want_out(),
        }
    }

    /// Takes a line of a text.
    pub fn show(&mut self, alloc: Global, shown: Shown, text: &[u8]) -> Result<(), Trouble> {
        let into = match shown {
            Shown::Printed => &mut self.printed,
            Shown::Changes => &mut self.changes,
            Shown::Entries => &mut self.told,
        };
        Ok(add_text(alloc, into, text)?)
    }
}
