// The numbers in the names of members.
ghost use Rattle.std.specs.Prelude.{◌≡◌, ◌≢◌, ◌≤◌, ◌++◌, ℕ, List, decimal, OnOk, IfOk, IfSome, IfNone, MatchOption};
ghost use Rattle.lr_rules.specs.Names.{IsMemberAt};
ghost use Rattle.lr_rules.specs.Path.{joined};
ghost use Rattle.lr_family.specs.Named.{framed, member_name, IsNamedAt};

use lr_rules::{Memory, Naming, Path};
use lr_stamps::{between, name_under, plain_number};
use std::alloc::{AllocError, Global};

// The number up to 4,294,967,295 that these bytes are the plain decimal text of.
fn small_number(digits: &[u8]) -> Option<u32>
    ensures some { IfSome result (λ number. (number ≤ 4294967295) × (digits.now ≡ decimal number)) }
    ensures none { IfNone result ((number : ℕ) → number ≤ 4294967295 → digits.now ≡ decimal number → ⊥) }
{
    let number = plain_number(digits)?;
    if number <= 4_294_967_295 {
        Some(number as u32)
    } else {
        None
    }
}

// What stands in the name between the base with a dot, and the extension.
fn middle<'a>(base: &[u8], ext: &[u8], name: &'a [u8]) -> Option<&'a [u8]>
    ensures { MatchOption result ((digits : List ℕ) → name.now ≢ framed base.now digits ext.now)
        (λ digits. name.now ≡ framed base.now digits.now ext.now) }
{
    match between(base, ext, name) {
        Some(rest) => rest.strip_prefix(b"."),
        None => None,
    }
}

// The number in the name, where it is base, dot, a plain number and extension.
fn number_of(base: &[u8], ext: &[u8], name: &[u8]) -> Option<u32>
    ensures some { IfSome result (λ number. (number ≤ 4294967295) × (name.now ≡ framed base.now (decimal number) ext.now)) }
    ensures none { IfNone result ((number : ℕ) → number ≤ 4294967295 → name.now ≡ framed base.now (decimal number) ext.now → ⊥) }
{
    match middle(base, ext, name) {
        Some(digits) => small_number(digits),
        None => None,
    }
}

/// The place of the member with this name, where it is one.
pub fn place_of_name(naming: &Naming, name: &[u8]) -> Option<u32>
    ensures { MatchOption result ((place : ℕ) → IsNamedAt naming.now place name.now → ⊥)
        (λ place. IsNamedAt naming.now place name.now) }
{
    match number_of(naming.base.bytes(), naming.ext.bytes(), name) {
        Some(number) => number.checked_sub(naming.start),
        None => None,
    }
}

/// The place of the member with this path, where it is one.
pub fn place_of_path(naming: &Naming, path: &Path) -> Option<u32>
    ensures { MatchOption result ((place : ℕ) → IsMemberAt naming.now place path.now → ⊥)
        (λ place. IsMemberAt naming.now place path.now) }
{
    match name_under(&naming.dir, path) {
        Some(name) => place_of_name(naming, name),
        None => None,
    }
}

// Adds the name of the member with these digits.
fn add_name(name: &mut Vec<u8>, naming: &Naming, digits: &[u8]) -> Result<(), AllocError>
    ensures { OnOk result (name.new.items ≡ name.old.items ++ framed naming.now.base digits.now naming.now.ext) }
{
    name.extend_from_slice(naming.base.bytes())?;
    name.push(b'.')?;
    name.extend_from_slice(digits)?;
    name.extend_from_slice(naming.ext.bytes())?;
    Ok(())
}

// The name of the member with this number.
fn name_of(alloc: Global, naming: &Naming, number: u32) -> Result<Vec<u8>, AllocError>
    ensures { IfOk result (λ name. name.items ≡ member_name naming.now number) }
{
    let digits = format!(in alloc; "{number}")?;
    let mut name = Vec::new(alloc);
    add_name(&mut name, naming, digits.as_bytes())?;
    Ok(name)
}

/// The path of the member with this number.
pub fn member_path(alloc: Global, naming: &Naming, number: u32) -> Result<Path, Memory>
    ensures { IfOk result (λ path. path ≡ joined naming.now.dir (member_name naming.now number)) }
{
    let Ok(name) = name_of(alloc, naming, number) else {
        return Err(Memory);
    };
    match naming.dir.join(alloc, &name) {
        Ok(path) => Ok(path),
        // A family's directory, base and extension are short enough that its names are paths, so this is want of memory.
        Err(_) => Err(Memory),
    }
}
