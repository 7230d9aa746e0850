// The lines of how a row is played.
use crate::called::span;
use crate::cursor::{Cursor, copied};
use crate::draft::Draft;
use crate::row::{Mode, RandomConf};
use lr_rows_line::Trouble;

fn random_conf(cursor: &mut Cursor) -> Result<RandomConf, Trouble> {
    let seed = cursor.number()?;
    let count = cursor.number()?;
    let length = cursor.number()?;
    Ok(RandomConf {
        seed,
        count,
        length,
        parts: copied(cursor.alloc, cursor.rest())?,
    })
}

impl Draft {
    pub fn set_fails(&mut self, cursor: &mut Cursor) -> Result<(), Trouble> {
        self.row.mode = Mode::EachFails(span(cursor)?);
        Ok(())
    }

    pub fn set_stops(&mut self, cursor: &mut Cursor) -> Result<(), Trouble> {
        self.row.mode = Mode::EachStops(span(cursor)?);
        Ok(())
    }

    pub fn set_puts(&mut self) -> Result<(), Trouble> {
        self.row.mode = Mode::EachPut;
        Ok(())
    }

    pub fn set_beginning(&mut self, cursor: &mut Cursor) -> Result<(), Trouble> {
        let least = cursor.number()?;
        self.row.mode = Mode::EachBeginning(least, cursor.number()?);
        Ok(())
    }

    pub fn set_random(&mut self, cursor: &mut Cursor) -> Result<(), Trouble> {
        self.row.mode = Mode::Random(random_conf(cursor)?);
        Ok(())
    }
}
