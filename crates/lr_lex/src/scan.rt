// Words, sign by sign.
ghost use Rattle.std.specs.Prelude.{◌≡◌, ◌==◌, ◌+◌, ◌≤◌, ◌<◌, ◌^◌, ◌-◌, ◌++◌, ◌∷◌, ℕ, [], length, IfOk, OnOk, IsUtf8, List, false};
ghost use Rattle.lr_lex.specs.Scanning.{draft_bytes, behind_sign, to_come, WordEnds, Extends, sign_bytes};
ghost use Rattle.lr_lex.specs.declared.sign.Sign.{Sign};

use crate::sign::Sign;
use crate::text::utf8_text;
use crate::word::Word;
use lr_rules::{Listed, Memory};
use std::alloc::Global;

/// The words so far, and the word that is being read, if one is.
#[derive(Drop)]
pub struct Scan {
    alloc: Global,
    words: Listed<Word>,
    inside: bool,
    bytes: Vec<u8>,
    at: usize,
    len: usize,
}

impl Scan {
    pub fn new(alloc: Global) -> Scan
        ensures words { result.words ≡ [] }
        ensures inside { result.inside ≡ false }
        ensures len { result.len ≡ 0 }
    {
        Scan {
            alloc,
            words: Listed::new(alloc),
            inside: false,
            bytes: Vec::new(alloc),
            at: 0,
            len: 0,
        }
    }

    /// Whether there is exactly one word, the one that is being read counted.
    pub fn has_one(&self) -> bool
        ensures { (at : ℕ) → result ≡ (length (to_come self.now at []) == 1) }
    {
        if self.inside {
            self.words.len() == 0
        } else {
            self.words.len() == 1
        }
    }

    /// Ends the word that is being read.
    fn end(&mut self) -> Result<(), Memory>
        requires { IsUtf8 (draft_bytes self.old) }
        ensures ends { OnOk result (WordEnds self.old self.new) }
        ensures len { self.new.len ≡ self.old.len }
    {
        if self.inside {
            let word = Word {
                text: utf8_text(self.alloc, self.bytes.as_slice())?,
                at: self.at,
                len: self.len,
            };
            self.words.push(word)?;
            self.inside = false;
        }
        Ok(())
    }

    /// Adds the sign at this place to the word, or begins one.
    fn extend(&mut self, at: usize, sign: Sign) -> Result<(), Memory>
        requires { self.old.len + 1 < 2 ^ 63 }
        ensures extends { OnOk result (Extends self.old self.new at sign) }
        ensures len { OnOk result (self.new.len ≤ self.old.len + 1) }
    {
        if !self.inside {
            self.bytes.clear();
            self.at = at;
            self.len = 0;
            self.inside = true;
        }
        self.len += 1;
        if let Sign::Plain(byte) | Sign::Quoted(byte) = sign {
            self.bytes.push(byte)?;
        }
        Ok(())
    }

    /// Takes the sign at this place.
    pub fn take(&mut self, at: usize, sign: Sign) -> Result<(), Memory>
        requires size { self.old.len + 1 < 2 ^ 63 }
        requires utf8 { sign ≡ Sign.Blank → IsUtf8 (draft_bytes self.old) }
        ensures words { OnOk result ((ss : List Sign) → to_come self.old at (sign ∷ ss) ≡ to_come self.new (at + 1) ss) }
        ensures bytes { OnOk result (draft_bytes self.new ≡ behind_sign (draft_bytes self.old) sign) }
        ensures len { OnOk result (self.new.len ≤ self.old.len + 1) }
    {
        if let Sign::Blank = sign {
            self.end()?;
        } else {
            self.extend(at, sign)?;
        }
        Ok(())
    }

    /// Takes signs, of which the first stands at this place.
    pub fn take_all(&mut self, at: usize, signs: &[Sign]) -> Result<(), Memory>
        requires place { at + length signs.now < 2 ^ 63 }
        requires size { self.old.len + length signs.now < 2 ^ 63 - 1 }
        requires utf8 { IsUtf8 (draft_bytes self.old ++ sign_bytes signs.now) }
        ensures words { OnOk result ((ss : List Sign) → to_come self.old at (signs.now ++ ss)
            ≡ to_come self.new (at + length signs.now) ss) }
        ensures utf8 { OnOk result (IsUtf8 (draft_bytes self.new)) }
        ensures len { OnOk result (self.new.len ≤ self.old.len + length signs.now) }
    {
        for (i, sign) in signs.iter().enumerate() {
            self.take(at + i, *sign)?;
        }
        Ok(())
    }

    /// The words, where these signs are the last.
    pub fn finish(self, at: usize, signs: &[Sign]) -> Result<Listed<Word>, Memory>
        requires place { at + length signs.now < 2 ^ 63 }
        requires size { self.len + length signs.now < 2 ^ 63 - 1 }
        requires utf8 { IsUtf8 (draft_bytes self ++ sign_bytes signs.now) }
        ensures { IfOk result (λ words. words ≡ to_come self at signs.now) }
    {
        let mut scan = self;
        scan.take_all(at, signs)?;
        scan.end()?;
        let Scan { words, .. } = scan;
        Ok(words)
    }
}
