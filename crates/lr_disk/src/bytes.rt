// The bytes of the files.
ghost use Rattle.std.specs.Prelude.{◌≡◌, ◌<◌, ℕ, length, OnOk};
ghost use Rattle.lr_host.specs.World.{World, length_of};
ghost use Rattle.lr_disk.specs.State.{ShowsWorld, FileHasRoom, IsFiled, file_with, fed_file, synced_file, emptied_file, cut_file};

use crate::file::{MemFile, empty_file, feed_file, flush_file, reserve_more, shorten_file};
use crate::lengths::length_for;
use crate::state::State;
use std::alloc::AllocError;

/// Makes room for so many bytes more in the file, where one is given. Nothing changes.
pub fn make_room(state: &mut State, file: Option<u64>, more: usize) -> Result<(), AllocError>
    ensures same { (w : World) → ShowsWorld state.old w → ShowsWorld state.new w }
    ensures room { OnOk result (FileHasRoom state.new file more) }
    ensures tree { state.new.tree ≡ state.old.tree }
    ensures holds { state.new.holds ≡ state.old.holds }
{
    if let Some(identity) = file {
        let place = identity as usize;
        if place < state.files.len() {
            reserve_more(&mut state.files[place], more)?;
        }
    }
    Ok(())
}

/// Appends bytes to the file, where one is given.
pub fn add_bytes(state: &mut State, file: Option<u64>, bytes: &[u8], at: i64)
    requires { FileHasRoom state.old file (length bytes.now) }
    ensures { IsFiled (fed_file bytes.now at) file state.old state.new }
{
    if let Some(identity) = file {
        let place = identity as usize;
        if place < state.files.len() {
            feed_file(&mut state.files[place], bytes, at);
        }
    }
}

/// Takes the bytes of the file, where one is given.
pub fn empty(state: &mut State, file: Option<u64>, at: i64)
    ensures { IsFiled (emptied_file at) file state.old state.new }
{
    if let Some(identity) = file {
        let place = identity as usize;
        if place < state.files.len() {
            empty_file(&mut state.files[place], at);
        }
    }
}

/// Syncs the file, where one is given.
pub fn sync(state: &mut State, file: Option<u64>)
    ensures { IsFiled synced_file file state.old state.new }
{
    if let Some(identity) = file {
        let place = identity as usize;
        if place < state.files.len() {
            flush_file(&mut state.files[place]);
        }
    }
}

/// Cuts each listed file to its length; what is left of each file is synced.
pub fn cut_all(files: &mut [MemFile], lengths: &[(u64, u64)])
    ensures size { length files.new ≡ length files.old }
    ensures files { (id : ℕ) → id < length files.old → file_with files.new id
        ≡ cut_file (length_of lengths.now id) (file_with files.old id) }
{
    for i in 0..files.len() {
        let limit = length_for(lengths, i as u64);
        shorten_file(&mut files[i], limit);
    }
}
