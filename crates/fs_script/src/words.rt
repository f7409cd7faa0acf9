//! The words of a line.

ghost use Rattle.std.specs.Prelude.{◌≡◌, ◌∷◌, [], MatchOption, option_copied};
ghost use Rattle.std.specs.List.{slice_get};
ghost use Rattle.fs_script.specs.Words.{words_of, only};

use crate::line::LineFault;

// The word with this number, from 0 on; single spaces stand between words.
pub(crate) fn word_at(line: &str, n: usize) -> Option<&str>
    ensures { option_copied result ≡ slice_get (words_of line.now) n }
{
    match cut(line) {
        Some((word, rest)) => {
            if n == 0 {
                Some(word)
            } else {
                word_at(rest, n - 1)
            }
        }
        None => { if n == 0 { Some(line) } else { None } }
    }
}

// There are no more words than so many.
pub(crate) fn only(line: &str, n: usize) -> Result<(), LineFault>
    ensures { result ≡ only n tt (words_of line.now) }
{
    match word_at(line, n) {
        Some(_) => Err(LineFault::Word),
        None => Ok(()),
    }
}

// The first word, and what stands behind its space; `None` where there is one word.
fn cut(line: &str) -> Option<(&str, &str)>
    ensures { MatchOption result
        (words_of line.now ≡ line.now ∷ [])
        (λ parts. words_of line.now ≡ parts.0.now ∷ words_of parts.1.now) }
{
    line.split_once(' ')
}
