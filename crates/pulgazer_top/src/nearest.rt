//! The nearest known word.

ghost use Rattle.pulgazer_top.specs.Nearest.{edits, nearer as nearer_one, nearest_after};
ghost use Rattle.std.specs.Option.{option_map};
ghost use Rattle.std.specs.Prelude.{◌≡◌, IfOk, map};

use std::alloc::{AllocError, Global};
use strsim::levenshtein;

/// The nearest one of known words, where `best` is the nearest of those before.
pub(crate) fn nearest_known<'a>(
    alloc: Global,
    word: &str,
    best: Option<&'a str>,
    known: &[&'a str],
) -> Result<Option<&'a str>, AllocError>
    ensures { IfOk result (λ found. option_map (λ text. text.now) found ≡ nearest_after word.now
        (option_map (λ text. text.now) best.entry) (map (λ text. text.now) known.now)) }
{
    let [first, rest @ ..] = known else {
        return Ok(best);
    };
    let next = nearer(alloc, word, best, first)?;
    nearest_known(alloc, word, next, rest)
}

/// The nearer one of two known words.
fn nearer<'a>(
    alloc: Global,
    word: &str,
    best: Option<&'a str>,
    known: &'a str,
) -> Result<Option<&'a str>, AllocError>
    ensures { IfOk result (λ found. option_map (λ text. text.now) found
        ≡ nearer_one word.now (option_map (λ text. text.now) best.entry) known.now) }
{
    let distance = edit_count(alloc, word, known)?;
    match best {
        Some(text) => {
            if distance < edit_count(alloc, word, text)? {
                return Ok(Some(known));
            }
            Ok(Some(text))
        }
        None => {
            if distance <= known.len() / 2 {
                return Ok(Some(known));
            }
            Ok(None)
        }
    }
}

/// How many characters must be put in, taken out or changed.
fn edit_count(alloc: Global, word: &str, known: &str) -> Result<usize, AllocError>
    ensures { IfOk result (λ count. count ≡ edits word.now known.now) }
{
    levenshtein(alloc, word, known)
}
