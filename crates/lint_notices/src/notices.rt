//! Notices.

use sexpr_text::Place;

/// What is told of a mistake.
#[derive(Debug, Drop)]
pub struct Notice {
    /// Whether it is in the file of the problem, and not in that of the domain.
    pub in_problem: bool,
    pub place: Place,
    /// The kind, in a word.
    pub kind: &'static str,
    /// What is the matter, in a sentence.
    pub message: String,
}

/// A limit of grounding, by its name.
#[derive(Clone, Copy, Debug)]
pub struct LimitName {
    pub name: &'static str,
}

/// All that is told.
#[derive(Debug, Drop)]
pub struct Report {
    /// The mistakes.
    pub notices: Vec<Notice>,
    /// What is worth a look, and no mistake.
    pub hints: Vec<Notice>,
    /// The limit of grounding that is passed.
    pub limit: Option<LimitName>,
}

/// The names of the two files.
#[derive(Clone, Copy, Debug)]
pub struct FileNames<'a> {
    pub domain: &'a str,
    pub problem: &'a str,
}
