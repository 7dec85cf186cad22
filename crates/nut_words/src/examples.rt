//! Worked examples. The prover computes them from the definitions, so they show what the definitions mean.
ghost use Rattle.std.specs.Prelude.{◌≡◌, ◌+◌, [], ◌∷◌, ◌++◌, Ok, Err, codes, replicate};
ghost use Rattle.nut_words.specs.Lines.{Text, TooLong, lines, rest};
ghost use Rattle.nut_words.specs.Quoting.{line_text};
ghost use Rattle.nut_words.specs.Reader.{spelled};
ghost use Rattle.nut_words.specs.declared.words.WordFault.TheVariants.{BadByte, OpenQuote, LoneBackslash, QuoteInWord, AfterQuote, TooManyWords};

use crate::limits::{LINE_MAX, WORDS_MAX};

/// States worked examples and does nothing when called: what some lines spell, how some words are written, and where
/// the lines of some streams end.
#[tactic(auto, unfolding(crate::specs::Reader::read))]
pub fn worked_examples()
    ensures words { spelled (codes "a=b \"\" # c")
        ≡ Ok (codes "a" ∷ codes "=" ∷ codes "b" ∷ codes "" ∷ []) }
    ensures no_words { spelled (codes "") ≡ Ok [] }
    ensures escaped_blank { spelled (codes "a\\ b") ≡ Ok (codes "a b" ∷ []) }
    ensures hash_in_quotes { spelled (codes "\"a#b\"") ≡ Ok (codes "a#b" ∷ []) }
    ensures escaped_hash { spelled (codes "\"a\\#b\"") ≡ Ok (codes "a#b" ∷ []) }

    ensures bad_byte { spelled (codes "\"a\tb\"") ≡ Err BadByte }
    ensures open_quote { spelled (codes "\"a") ≡ Err OpenQuote }
    ensures lone_backslash { spelled (codes "\"a\\") ≡ Err LoneBackslash }
    ensures quote_in_word { spelled (codes "a\"b") ≡ Err QuoteInWord }
    ensures after_quote { spelled (codes "\"a\"b") ≡ Err AfterQuote }

    ensures most_words { spelled (line_text (replicate WORDS_MAX (codes "a"))) ≡ Ok (replicate WORDS_MAX (codes "a")) }
    ensures too_many_words { spelled (line_text (replicate (WORDS_MAX + 1) (codes "a"))) ≡ Err TooManyWords }

    ensures written { line_text (codes "VAR" ∷ codes "a b" ∷ codes "" ∷ codes "a\"#\\" ∷ [])
        ≡ codes "VAR \"a b\" \"\" \"a\\\"\\#\\\\\"" }

    ensures some_lines { lines (codes "VER\n\nGE") ≡ Text (codes "VER") ∷ Text [] ∷ [] }
    ensures some_rest { rest (codes "VER\n\nGE") ≡ Text (codes "GE") }
    ensures longest_line { lines (replicate LINE_MAX 97 ++ 10 ∷ []) ≡ Text (replicate LINE_MAX 97) ∷ [] }
    ensures too_long_line { lines (replicate (LINE_MAX + 1) 97 ++ 10 ∷ []) ≡ TooLong ∷ [] }
    ensures longest_rest { rest (replicate LINE_MAX 97) ≡ Text (replicate LINE_MAX 97) }
    ensures too_long_rest { rest (replicate (LINE_MAX + 1) 97) ≡ TooLong }
{}
