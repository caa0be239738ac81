// The words of a line of text, and the decimal numbers among them.
#![tactic(auto)]

ghost use Rattle.std.specs.Prelude.{◌≡◌, IfOk, MatchBool};
ghost use Rattle.words.specs.Words.{Comment, Split, word_at, ReadsDecimal};

use std::alloc::{AllocError, Global};

fn is_comment(word: &str) -> bool
    ensures { MatchBool result (Comment word.now) (Comment word.now → ⊥) }
{
    word.starts_with('#')
}

// The words of a line; one that begins with `#` begins a comment.
pub fn split<'a>(heap: Global, line: &'a str) -> Result<Vec<&'a str>, AllocError>
    ensures { IfOk result (λ v. Split line.now v.items) }
{
    line.split_whitespace()
        .take_while(|word| !is_comment(word))
        .collect(heap)
}

// The word at a place, empty where the line has none there: no word of a line is empty.
pub fn at<'a>(words: &[&'a str], place: usize) -> &'a str
    ensures { result.now ≡ word_at words.now place }
{
    words.get(place).copied().unwrap_or("")
}

// The decimal number that a word is. No sign may stand before the digits.
pub fn number(word: &str) -> Option<u64>
    ensures { ReadsDecimal word.now result }
{
    if word.starts_with('+') {
        return None;
    }
    word.parse().ok()
}
