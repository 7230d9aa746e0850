// The names of a log's members, as its rule gives them.
ghost use Rattle.std.specs.Prelude.{◌≡◌, ◌≤◌, ◌&&◌, None, IfOk, bytes_eq, length};
ghost use Rattle.lr_rules.specs.Names.{naming_of, family_dir, ext_of, base_of, ends_with, without, aside_path, is_aside};
ghost use Rattle.lr_rules.specs.Path.{path_fault, parent_of};

use crate::copies::copy_format;
use crate::memory::Memory;
use crate::path::Path;
use crate::rule::{Naming, Rule, Way};
use crate::text::{Text, text_of};
use std::alloc::Global;

/// Whether the name ends with these bytes.
pub fn ends_with(end: &[u8], name: &[u8]) -> bool
    ensures { result ≡ ends_with end.now name.now }
{
    end.len() <= name.len() && &name[name.len() - end.len()..] == end
}

// `extension`, where the log's name ends with it.
fn own_ext<'a>(extension: &'a Option<Text>, name: &[u8]) -> &'a [u8]
    ensures { result.now ≡ ext_of None extension.now name.now }
{
    match extension {
        Some(extension) => {
            if ends_with(extension.bytes(), name) {
                extension.bytes()
            } else {
                &[]
            }
        }
        None => &[],
    }
}

// The extension of the members of a log of this name.
fn ext_of<'a>(rule: &'a Rule, name: &[u8]) -> &'a [u8]
    ensures { result.now ≡ ext_of rule.now.addextension rule.now.extension name.now }
{
    match &rule.addextension {
        Some(added) => added.bytes(),
        None => own_ext(&rule.extension, name),
    }
}

// The log's name without the extension, where it ends with that.
fn base_of<'a>(ext: &[u8], name: &'a [u8]) -> &'a [u8]
    ensures { result.now ≡ base_of ext.now name.now }
{
    if ends_with(ext, name) {
        &name[..name.len() - ext.len()]
    } else {
        name
    }
}

// The directory of the members.
fn dir_of(alloc: Global, rule: &Rule, log: &Path) -> Result<Path, Memory>
    ensures { IfOk result (λ dir. dir ≡ family_dir (parent_of log.now) rule.now.olddir) }
{
    let here = log.parent(alloc)?;
    let Some(olddir) = &rule.olddir else {
        return Ok(here);
    };
    match Path::from_word(alloc, &here, olddir.bytes()) {
        Ok(dir) => Ok(dir),
        // The log's directory and the word are short enough and each of them a path, so this is want of memory.
        Err(_) => Err(Memory),
    }
}

// Whether the path has this ending, behind the log's path.
fn has_end(path: &[u8], log: &[u8], end: &[u8]) -> bool
    ensures { result ≡ (ends_with end.now path.now && bytes_eq (without end.now path.now) log.now) }
{
    ends_with(end, path) && &path[..path.len() - end.len()] == log
}

/// Whether the path is that where a log of this path waits that is set aside: the log's with `.tmp` behind it. It takes no
/// memory.
pub fn is_aside_path(path: &Path, log: &Path) -> bool
    ensures { result ≡ bytes_eq path.now (aside_path log.now) }
{
    has_end(path.bytes(), log.bytes(), b".tmp")
}

// Whether the way sets the log aside before it is copied.
fn is_aside(way: Way) -> bool
    ensures { result ≡ is_aside way }
{
    match way {
        Way::RenameCopy => true,
        Way::Rename | Way::Copy | Way::CopyTruncate => false,
    }
}

/// How the members of a log are named, by its rule: their directory is that of the log, or `olddir`, which a relative
/// word names from there on; their extension is `addextension`, or `extension` where the log's name ends with it; their
/// base is the log's name, without the extension where it ends with that. A name under which the log waits is among them
/// where the rule's way sets it aside. The rule is one of `Rules`, whose limits keep the directory a path of 2,561 bytes
/// at most.
pub fn naming_of(alloc: Global, rule: &Rule, log: &Path) -> Result<Naming, Memory>
    requires size { length log.now ≤ 2048 }
    ensures naming { IfOk result (λ naming. naming ≡ naming_of rule.now log.now) }
    ensures dir { IfOk result (λ naming. path_fault naming.dir ≡ None) }
{
    let name = log.last();
    let ext = ext_of(rule, name);
    let base = text_of(alloc, base_of(ext, name))?;
    let ext = text_of(alloc, ext)?;
    let dir = dir_of(alloc, rule, log)?;
    let dated = copy_format(alloc, &rule.dated)?;
    Ok(Naming {
        dir,
        base,
        ext,
        start: rule.start,
        dated,
        aside: is_aside(rule.way),
    })
}
