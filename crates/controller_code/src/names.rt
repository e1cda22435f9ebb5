//! Names of programs.

ghost use Rattle.controller_code.specs.CodeNames.{
  is_code_byte,
  is_code_name as is_named,
  is_letter as is_a_letter,
};
ghost use Rattle.std.specs.List.{list_all};
ghost use Rattle.std.specs.Prelude.{◌≡◌, slice_index_or};

/// Whether a text can be the name of a program: a letter, and then letters, digits and `_`. In C each name
/// of the program begins with it and `_`, so that no keyword comes of it.
pub fn is_code_name(name: &str) -> bool
    ensures { result ≡ is_named name.now }
{
    let bytes = name.as_bytes();
    begins_with_letter(bytes) && are_name_bytes(bytes)
}

fn begins_with_letter(bytes: &[u8]) -> bool
    ensures { result ≡ is_a_letter (slice_index_or bytes.now 0 0) }
{
    match bytes.first() {
        Some(byte) => is_letter(*byte),
        None => false,
    }
}

fn are_name_bytes(bytes: &[u8]) -> bool
    ensures { result ≡ list_all is_code_byte bytes.now }
{
    for byte in bytes {
        if !is_name_byte(*byte) {
            return false;
        }
    }
    true
}

fn is_letter(byte: u8) -> bool
    ensures { result ≡ is_a_letter byte }
{
    byte.is_ascii_alphabetic()
}

/// Whether a byte is a letter, a digit or `_`.
fn is_name_byte(byte: u8) -> bool
    ensures { result ≡ is_code_byte byte }
{
    is_letter(byte) || byte.is_ascii_digit() || byte == b'_'
}
