// A lexer.
ghost use Rattle.std.specs.Prelude.{◌≡◌, ◌<◌, ◌^◌, length};
ghost use Rattle.lr_lex.specs.Items.{answer};

use crate::item::{Item, LexFault, LexKind};
use crate::place::Place;
use crate::said::{Said, read_line};
use crate::script::{read_script, script_item};
use crate::split::{number, pass};
use std::alloc::Global;

/// Reads the items of a text, one after another.
#[derive(Drop)]
pub struct Lexer<'a> {
    alloc: Global,
    place: Place<'a>,
}

impl<'a> Lexer<'a> {
    ghost use Rattle.lr_lex.specs.Items.{items};
    ghost use Rattle.lr_lex.specs.Lexing.{coming, LexerGives};

    /// A lexer at the start of a text of fewer than 2^32 bytes, which has taken no memory.
    pub fn new(alloc: Global, bytes: &'a [u8]) -> Lexer<'a>
        requires { length bytes.now < 2 ^ 32 }
        ensures { coming result ≡ items bytes.now }
    {
        Lexer {
            alloc,
            place: Place {
                rest: bytes,
                at: 0,
                line: 1,
            },
        }
    }

    /// The next item or fault, and none exactly at the end.
    ///
    /// After a fault of a line the lexer goes on at the next line, after a fault of a script's text at the line behind
    /// its `endscript`, or at the end where it has none. After `Memory` it stands where it stood.
    pub fn next(&mut self) -> Result<Option<Item>, LexFault>
        ensures { LexerGives self.old self.new result }
    {
        while !self.place.rest.is_empty() {
            let (line, behind) = pass(&self.place);
            let number = number(&self.place);
            let Ok(said) = read_line(self.alloc, line, self.place.at, number) else {
                return Err(memory(number));
            };
            match said {
                Said::Nothing => self.place = behind,
                Said::Item(item) => {
                    self.place = behind;
                    return Ok(Some(item));
                }
                Said::Fault(fault) => {
                    self.place = behind;
                    return Err(fault);
                }
                Said::Script { word, brace, stray } => {
                    let (text, ended, behind) = read_script(behind);
                    let Ok(told) = script_item(self.alloc, word, brace, stray, text, ended, number)
                    else {
                        return Err(memory(number));
                    };
                    self.place = behind;
                    return answer(told);
                }
            }
        }
        Ok(None)
    }
}

fn answer(told: Result<Item, LexFault>) -> Result<Option<Item>, LexFault>
    ensures { result ≡ answer told }
{
    match told {
        Ok(item) => Ok(Some(item)),
        Err(fault) => Err(fault),
    }
}

fn memory(line: u32) -> LexFault
    ensures { result.kind ≡ LexKind.Memory }
{
    LexFault {
        line,
        kind: LexKind::Memory,
    }
}
