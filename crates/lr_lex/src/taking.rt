// The bytes of a stream, line by line.
ghost use Rattle.std.specs.Prelude.{◌≡◌, ◌≤◌, ◌<◌, ◌+◌, ◌^◌, ◌++◌, ◌∷◌, [], true, false, length, IfOk, OnOk};
ghost use Rattle.lr_lex.specs.Items.{items};
ghost use Rattle.lr_lex.specs.Holding.{IsHeld, IsSameToCome, ItemCame, StreamBrings, FirstOf, Filled};
ghost use Rattle.lr_lex.specs.Holding.{BeginsLine, EndsScript, PushesLine};
ghost use Rattle.lr_lex.specs.Holding.{StreamPasses, TellsNext, rest_of, size_of};
ghost use Rattle.lr_lex.specs.Whole.{IsScriptBegun};
ghost use Rattle.lr_lex.specs.Moved.{moved_item, moved_fault, IsNearItem};

use crate::held::Held;
use crate::item::{Item, LexFault, LexKind};
use crate::lexer::Lexer;
use crate::moving::{move_fault, move_item};
use crate::script::is_end;
use crate::split::newline;
use lr_rules::Memory;
use std::alloc::Global;

/// The first item or fault that the bytes tell by themselves.
pub fn first_of(alloc: Global, bytes: &[u8]) -> Result<Option<Item>, LexFault>
    requires { length bytes.now < 2 ^ 32 }
    ensures { FirstOf (items bytes.now) result }
{
    let mut lexer = Lexer::new(alloc, bytes);
    lexer.next()
}

/// Takes in the bytes before the next newline, or all; whether there is one.
pub fn fill(held: &mut Held) -> Result<bool, Memory>
    requires { IsHeld held.old }
    ensures held { IsHeld held.new }
    ensures filled { Filled held.old held.new }
    ensures found { IfOk result (λ found. BeginsLine found (rest_of held.new)) }
    ensures few { size_of held.new ≤ size_of held.old }
{
    let Some(size) = newline(&held.rest[held.from..]) else {
        held.bytes.extend_from_slice(&held.rest[held.from..])?;
        held.rest.clear();
        held.from = 0;
        return Ok(false);
    };
    held.bytes
        .extend_from_slice(&held.rest[held.from..held.from + size])?;
    held.from += size;
    Ok(true)
}

// The line at the end of the bytes, with its newline, is one of the script's.
fn push_line(held: &mut Held) -> Result<(), Memory>
    requires many { held.old.lines < 2 ^ 32 }
    requires from { held.old.from < 2 ^ 63 }
    ensures { PushesLine held.old held.new result }
{
    held.bytes.push(b'\n')?;
    held.begun = held.bytes.len();
    held.lines += 1;
    held.from += 1;
    Ok(())
}

// Lets go the bytes and the newline behind them, which are so many lines.
fn pass(held: &mut Held, lines: u64)
    requires lines { held.old.down + lines < 2 ^ 64 }
    requires from { held.old.from < 2 ^ 63 }
    requires at { held.old.at + length held.old.bytes.items < 2 ^ 63 }
    ensures { StreamPasses held.old held.new lines }
{
    held.at += held.bytes.len() + 1;
    held.down += lines;
    held.bytes.clear();
    held.begun = 0;
    held.lines = 0;
    held.from += 1;
}

// Takes the item that the bytes tell by themselves, so many lines.
fn take_item(held: &mut Held, item: Item, lines: u64) -> Item
    requires held { IsHeld held.old }
    requires near { IsNearItem held.old.down held.old.at item }
    requires tells { TellsNext held.old lines (Ok (moved_item held.old.down held.old.at item) ∷ []) }
    ensures held { IsHeld held.new }
    ensures came { ItemCame held.old held.new (Ok result) }
    ensures less { length (rest_of held.new) < length (rest_of held.old) }
    ensures few { size_of held.new ≤ size_of held.old }
{
    let item = move_item(item, held.down as u32, held.at);
    pass(held, lines);
    item
}

// The same of a fault.
fn take_fault(held: &mut Held, fault: LexFault, lines: u64) -> LexFault
    requires held { IsHeld held.old }
    requires near { fault.line + held.old.down < 2 ^ 32 }
    requires tells { TellsNext held.old lines (Err (moved_fault held.old.down fault) ∷ []) }
    ensures held { IsHeld held.new }
    ensures came { ItemCame held.old held.new (Err result) }
    ensures kind { result.kind ≡ fault.kind }
    ensures few { size_of held.new ≤ size_of held.old }
{
    let fault = move_fault(fault, held.down as u32);
    pass(held, lines);
    fault
}

// The same of nothing.
fn take_nothing(held: &mut Held)
    requires held { IsHeld held.old }
    requires tells { TellsNext held.old 1 [] }
    ensures held { IsHeld held.new }
    ensures same { IsSameToCome held.old held.new }
    ensures less { length (rest_of held.new) < length (rest_of held.old) }
    ensures few { size_of held.new ≤ size_of held.old }
{
    pass(held, 1);
}

/// Want of memory at the line that begins here.
pub fn no_memory(held: &Held) -> LexFault
    requires { IsHeld held.now }
    ensures { result.kind ≡ LexKind.Memory }
{
    LexFault {
        line: (held.down as u32).saturating_add(1),
        kind: LexKind::Memory,
    }
}

// The line is one of the script's.
fn keep_line(held: &mut Held) -> Result<Option<Item>, LexFault>
    requires held { IsHeld held.old }
    requires next { BeginsLine true (rest_of held.old) }
    requires begun { IsScriptBegun (1 + held.old.down) held.old.at (held.old.bytes.items ++ 10 ∷ []) (held.old.lines + 1) }
    ensures held { IsHeld held.new }
    ensures brings { StreamBrings held.old held.new result }
    ensures less { OnOk result (length (rest_of held.new) < length (rest_of held.old)) }
    ensures few { size_of held.new ≤ size_of held.old }
{
    match push_line(held) {
        Ok(()) => Ok(None),
        Err(_) => Err(no_memory(held)),
    }
}

// What a whole line brings where a script has begun that it ends.
fn end_script(held: &mut Held) -> Result<Option<Item>, LexFault>
    requires held { IsHeld held.old }
    requires next { BeginsLine true (rest_of held.old) }
    requires ends { EndsScript held.old }
    ensures held { IsHeld held.new }
    ensures brings { StreamBrings held.old held.new result }
    ensures less { OnOk result (length (rest_of held.new) < length (rest_of held.old)) }
    ensures few { size_of held.new ≤ size_of held.old }
{
    let lines = held.lines + 1;
    match first_of(held.alloc, &held.bytes) {
        Ok(None) => unreachable!(),
        Ok(Some(item)) => Ok(Some(take_item(held, item, lines))),
        Err(fault) => match fault.kind {
            LexKind::Memory => Err(fault),
            LexKind::NoEndscript | LexKind::LineTooLong | LexKind::NotUtf8 | LexKind::OpenQuote =>
                Err(take_fault(held, fault, lines)),
        },
    }
}

// Behind the fault that a line tells by itself: it is told, or a script begins.
fn line_fault(held: &mut Held, fault: LexFault) -> Result<Option<Item>, LexFault>
    requires held { IsHeld held.old }
    requires next { BeginsLine true (rest_of held.old) }
    requires begun { held.old.begun ≡ 0 }
    requires first { FirstOf (items held.old.bytes.items) (Err fault) }
    ensures held { IsHeld held.new }
    ensures brings { StreamBrings held.old held.new result }
    ensures less { OnOk result (length (rest_of held.new) < length (rest_of held.old)) }
    ensures few { size_of held.new ≤ size_of held.old }
{
    match fault.kind {
        LexKind::Memory => Err(fault),
        LexKind::NoEndscript => keep_line(held),
        LexKind::LineTooLong | LexKind::NotUtf8 | LexKind::OpenQuote => {
            Err(take_fault(held, fault, 1))
        }
    }
}

// What a whole line brings where no script has begun.
fn step_line(held: &mut Held) -> Result<Option<Item>, LexFault>
    requires held { IsHeld held.old }
    requires next { BeginsLine true (rest_of held.old) }
    requires begun { held.old.begun ≡ 0 }
    ensures held { IsHeld held.new }
    ensures brings { StreamBrings held.old held.new result }
    ensures less { OnOk result (length (rest_of held.new) < length (rest_of held.old)) }
    ensures few { size_of held.new ≤ size_of held.old }
{
    match first_of(held.alloc, &held.bytes) {
        Ok(None) => {
            take_nothing(held);
            Ok(None)
        }
        Ok(Some(item)) => Ok(Some(take_item(held, item, 1))),
        Err(fault) => line_fault(held, fault),
    }
}

// What a whole line brings where a script has begun.
fn step_script(held: &mut Held) -> Result<Option<Item>, LexFault>
    requires held { IsHeld held.old }
    requires next { BeginsLine true (rest_of held.old) }
    requires begun { 0 < held.old.begun }
    ensures held { IsHeld held.new }
    ensures brings { StreamBrings held.old held.new result }
    ensures less { OnOk result (length (rest_of held.new) < length (rest_of held.old)) }
    ensures few { size_of held.new ≤ size_of held.old }
{
    if is_end(&held.bytes[held.begun..]) {
        end_script(held)
    } else {
        keep_line(held)
    }
}

/// What a whole line brings: an item or a fault, or none by itself.
pub fn step(held: &mut Held) -> Result<Option<Item>, LexFault>
    requires held { IsHeld held.old }
    requires next { BeginsLine true (rest_of held.old) }
    ensures held { IsHeld held.new }
    ensures brings { StreamBrings held.old held.new result }
    ensures less { OnOk result (length (rest_of held.new) < length (rest_of held.old)) }
    ensures few { size_of held.new ≤ size_of held.old }
{
    if held.begun > 0 {
        step_script(held)
    } else {
        step_line(held)
    }
}
