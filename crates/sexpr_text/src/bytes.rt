//! What a byte is to the reader, outside comments.

ghost use Rattle.std.specs.Prelude.{◌≡◌};
ghost use Rattle.sexpr_text.specs.Lexis.{is_word_byte};
ghost use Rattle.sexpr_text.specs.Classes.{IsOfClass};

// The classes of bytes.
#[derive(Clone, Copy)]
pub enum Class {
    LineFeed,
    Space,
    Semicolon,
    Open,
    Close,
    OfWord,
    Bad,
}

// The class of the byte.
pub fn class_of(byte: u8) -> Class
    ensures { IsOfClass byte result }
{
    match byte {
        b'\n' => Class::LineFeed,
        b'\t'..=b'\r' | b' ' => Class::Space,
        b';' => Class::Semicolon,
        b'(' => Class::Open,
        b')' => Class::Close,
        b'!'..=b'~' => Class::OfWord,
        _ => Class::Bad,
    }
}

// Whether the byte belongs to words.
pub fn is_of_word(byte: u8) -> bool
    ensures { result ≡ is_word_byte byte }
{
    byte >= b'!' && byte <= b'~' && byte != b'(' && byte != b')' && byte != b';'
}
