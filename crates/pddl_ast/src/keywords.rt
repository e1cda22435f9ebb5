//! What words mean where they stand.

ghost use Rattle.std.specs.Prelude.{◌≡◌};
ghost use Rattle.std.specs.Str.{bytes_eq};
ghost use Rattle.pddl_ast.specs.Words as words;

use sexpr_text::Text;

/// What a word means as the first item of a list: one of the ten words with a meaning of their own,
/// or the name of a predicate.
#[derive(Clone, Copy, Debug)]
pub enum Keyword {
    /// `and`
    And,
    /// `or`
    Or,
    /// `not`
    Not,
    /// `imply`
    Imply,
    /// `exists`
    Exists,
    /// `forall`
    Forall,
    /// `=`
    Equals,
    /// `when`
    When,
    /// `oneof`
    Oneof,
    /// `unknown`
    Unknown,
    /// Every other word.
    Other,
}

/// What the word means as the first item of a list.
#[tactic(auto, unfolding(crate::specs::Words::keyword_of))]
pub fn keyword_of(word: &Text) -> Keyword
    ensures { result ≡ words.keyword_of word.now }
{
    if spells(word, b"and") {
        Keyword::And
    } else if spells(word, b"or") {
        Keyword::Or
    } else if spells(word, b"not") {
        Keyword::Not
    } else if spells(word, b"imply") {
        Keyword::Imply
    } else if spells(word, b"exists") {
        Keyword::Exists
    } else if spells(word, b"forall") {
        Keyword::Forall
    } else if spells(word, b"=") {
        Keyword::Equals
    } else if spells(word, b"when") {
        Keyword::When
    } else if spells(word, b"oneof") {
        Keyword::Oneof
    } else if spells(word, b"unknown") {
        Keyword::Unknown
    } else {
        Keyword::Other
    }
}

/// Whether the word has a meaning of its own, so that no predicate may have it as its name.
pub fn is_reserved(word: &Text) -> bool
    ensures { result ≡ words.is_reserved word.now }
{
    !matches!(keyword_of(word), Keyword::Other)
}

/// Whether the word is a variable: it begins with `?`.
pub fn is_variable(word: &Text) -> bool
    ensures { result ≡ words.is_variable word.now }
{
    word.as_bytes().first().copied().unwrap_or(0) == b'?'
}

/// Whether the word is `-`.
#[tactic(auto, unfolding(crate::specs::Words::is_dash))]
pub fn is_dash(word: &Text) -> bool
    ensures { result ≡ words.is_dash word.now }
{
    spells(word, b"-")
}

/// Whether the word is the head of a condition or an effect that is left out: of numbers,
/// preferences and probabilities.
#[tactic(auto, unfolding(crate::specs::Words::is_left_out))]
pub fn is_left_out(word: &Text) -> bool
    ensures { result ≡ words.is_left_out word.now }
{
    spells(word, b"<")
        || spells(word, b">")
        || spells(word, b"<=")
        || spells(word, b">=")
        || spells(word, b"preference")
        || spells(word, b"increase")
        || spells(word, b"decrease")
        || spells(word, b"assign")
        || spells(word, b"scale-up")
        || spells(word, b"scale-down")
        || spells(word, b"probabilistic")
}

/// Whether the word is spelled by exactly these bytes.
pub fn spells(word: &Text, bytes: &[u8]) -> bool
    ensures { result ≡ bytes_eq word.now bytes.now }
{
    word.as_bytes() == bytes
}
