//! Errors that help: what is printed below the line of a refusal, for the programs that print more
//! than `mbp`, whose text is fixed.
//!
//! `specs/` says what that is: `FaultHelp` the text below the line of a fault, `FaultKinds` what each
//! kind of fault means, `Keeping` the files that a shelf keeps for it, and `Helped` an answer with its help.
#![tactic(auto)]

mod fault_kinds;
mod fault_texts;
mod helped;
mod keeping;

pub use fault_kinds::meaning_of;
pub use fault_texts::fault_help;
pub use helped::deliver_helped;
pub use keeping::{KeepingShelf, KeptFile};
