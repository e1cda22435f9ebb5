//! In which files mistakes are looked for, and how they are shown.

use lint_notices::FileNames;

/// What is asked: the files, and whether the answer is to be a JSON document.
#[derive(Clone, Copy)]
pub struct MistakesWords<'a> {
    pub names: FileNames<'a>,
    pub json: bool,
}
