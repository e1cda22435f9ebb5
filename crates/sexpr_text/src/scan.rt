//! Where a word and a comment end.

ghost use Rattle.std.specs.Prelude.{◌≡◌, ℕ, ◌<◌, ◌≤◌, true, false, length, slice_index};
ghost use Rattle.sexpr_text.specs.Lexis.{is_word_byte, is_line_feed};

use crate::bytes::is_of_word;

// The first offset from `start` on whose byte belongs to no word, or the length.
pub fn word_end(bytes: &[u8], start: usize) -> usize
    requires { start ≤ length bytes.now }
    ensures after { start ≤ result }
    ensures within { result ≤ length bytes.now }
    ensures word { (k : ℕ) → start ≤ k → k < result → is_word_byte (slice_index bytes.now k)
        ≡ true }
    ensures stops { is_word_byte (slice_index bytes.now result) ≡ false }
{
    let mut end = start;
    while end < bytes.len() && is_of_word(bytes[end]) {
        end += 1;
    }
    end
}

// The first offset from `start` on with a line feed, or the length.
pub fn comment_end(bytes: &[u8], start: usize) -> usize
    requires { start ≤ length bytes.now }
    ensures after { start ≤ result }
    ensures within { result ≤ length bytes.now }
    ensures comment { (k : ℕ) → start ≤ k → k < result → is_line_feed (slice_index bytes.now k)
        ≡ false }
    ensures stops { result < length bytes.now → is_line_feed (slice_index bytes.now result) ≡ true }
{
    let mut end = start;
    while end < bytes.len() && bytes[end] != b'\n' {
        end += 1;
    }
    end
}
