//! S-expressions with places: the forms that a text spells, or its first lexical fault.
//!
//! A text is a list of bytes. White space is the bytes 9 to 13 and 32. A `;` begins a comment that
//! runs up to and without the next line feed, or to the end, and may hold any bytes. `(` and `)`
//! are parentheses. A word is a longest run of the bytes 33 to 126 other than `(`, `)` and `;`, and
//! its text is that run in lower case. Every other byte outside a comment is a fault.
//!
//! `specs/Lexis.antt` says what stands at an offset, `specs/Spelling.antt` which forms a text
//! spells, `specs/Faults.antt` which fault it has, and `specs/Formed.antt` what holds of every form
//! that was read. `laws` says that a text has exactly one of the two.
#![tactic(auto)]

mod bytes;
mod faults;
mod flaw_laws;
mod forms;
mod groups;
mod laws;
mod nest;
mod numerals;
mod parts;
mod read;
mod scan;
mod texts;

pub use faults::{FaultKind, InputFault, ReadErr};
pub use flaw_laws::{
    first_is_least, flawless_or_faulty, groups_in_order, listed_in_order, passes_in_order,
};
pub use forms::{Form, Place, Span};
pub use groups::{GroupReader, fault_at, read_groups};
pub use laws::{fault_rules_out_forms, one_fault, one_spelling, spelled_or_faulty};
pub use numerals::{numeral, numeral_in};
pub use parts::{
    Head, View, after_word, begins_with, first_definition, first_group, group_after, head_of,
    is_definition, is_name, is_nothing, is_one, is_titled, only_group, only_word,
};
pub use read::{MAX_BYTES, MAX_DEPTH, read_forms};
pub use texts::Text;
