//! What is told of likely mistakes: the file and the place of each, its kind in a word, and what is the
//! matter; as lines of text, and as a JSON document.
//!
//! `specs/Notices.antt` says what is told of each mistake, `specs/Texts.antt` which lines and which
//! document that is.
#![tactic(auto)]

mod documents;
mod messages;
mod notices;
mod task_messages;
mod texts;

pub use documents::report_document;
pub use messages::{Source, add_notices, text_at};
pub use notices::{FileNames, LimitName, Notice, Report};
pub use task_messages::{Written, add_groups, add_never, goal_notice, invariant_notice};
pub use texts::report_text;
