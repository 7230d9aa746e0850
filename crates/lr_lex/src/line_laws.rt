// Laws of the definitions.
ghost use Rattle.std.specs.Prelude.{◌≡◌, ◌+◌, ◌++◌, ◌∷◌, ℕ, List, IsTrue, length};
ghost use Rattle.lr_lex.specs.Words.{Rises};
ghost use Rattle.lr_lex.specs.Items.{items, all_words};
ghost use Rattle.lr_lex.specs.Lines.{lines, line_at, line_of, after_line};
ghost use Rattle.lr_lex.specs.Pieces.{has_line};

/// The words of a text stand one behind another inside it, and none is empty of bytes.
pub fn words_rise()
    ensures { (text : List ℕ) → Rises 0 (all_words (items text)) (length text) }
{}

/// A whole line is read the same whatever comes behind it.
pub fn whole_line_stands()
    ensures { (number at : ℕ) (bytes more : List ℕ) → IsTrue (has_line bytes) → lines number at (bytes ++ more)
        ≡ line_at number at (line_of bytes) ∷ lines (number + 1) (at + length (line_of bytes) + 1) (after_line bytes ++ more) }
{}
