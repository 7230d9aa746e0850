// Laws of texts that come in pieces.
ghost use Rattle.std.specs.Prelude.{◌≡◌, ◌+◌, ◌++◌, ◌∷◌, [], ℕ, false, true, List, map};
ghost use Rattle.lr_lex.specs.declared.said.Said.{Said};
ghost use Rattle.lr_lex.specs.Items.{items_from, said, told, is_end, script, script_text};
ghost use Rattle.lr_lex.specs.Lines.{line_at};
ghost use Rattle.lr_lex.specs.Pieces.{has_line};
ghost use Rattle.lr_lex.specs.Moved.{moved};
ghost use Rattle.lr_lex.specs.Whole.{IsPlainSaid, IsScriptBegun, Tell};

/// A text that stands further on has the same items, so many lines and bytes further on.
pub fn items_move()
    ensures { (number at down by : ℕ) (text : List ℕ) → items_from (number + down) (at + by) text
        ≡ map (moved down by) (items_from number at text) }
{}

/// What a line with its newline tells, or a script with the line that ends it, it tells whatever comes behind; and what
/// comes behind tells as much as where it stands alone.
pub fn whole_lines_tell()
    ensures line { (number at : ℕ) (line : List ℕ) (s : Said) → has_line line ≡ false → said (line_at number at line) ≡ s
        → IsPlainSaid s → Tell number at (line ++ 10 ∷ []) 1 (told number s []) }
    ensures script { (number at : ℕ) (bytes : List ℕ) (count : ℕ) (line : List ℕ) (b : IsScriptBegun number at bytes count)
        → has_line line ≡ false → ((m a : ℕ) → is_end (line_at m a line) ≡ true)
        → Tell number at (bytes ++ (line ++ 10 ∷ [])) (count + 1)
        (script b.first.number b.word b.brace b.stray (script_text b.others) true ∷ []) }
    ensures goes_on { (number at : ℕ) (bytes : List ℕ) (count : ℕ) (line : List ℕ) → IsScriptBegun number at bytes count
        → has_line line ≡ false → ((m a : ℕ) → is_end (line_at m a line) ≡ false)
        → IsScriptBegun number at (bytes ++ (line ++ 10 ∷ [])) (count + 1) }
{}
