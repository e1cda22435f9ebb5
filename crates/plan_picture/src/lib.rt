//! Pictures of plans: a node for each configuration that a plan may reach, that is a state with the
//! context that the plan is in, and the steps that it may take there, by action and outcome. And the
//! text of a picture in the DOT language, which `dot` draws: a line a node and a line a step.
//!
//! `specs/Pictures.antt` says what the picture of a plan is, and `specs/Texts.antt` what is printed of
//! it, byte for byte. `specs/Runs.antt` says which runs are runs in a picture.
#![tactic(auto)]

mod advised;
mod labels;
mod marks;
mod pictures;
mod places;
mod runs;
mod text;

pub use labels::{action_name, push_label};
pub use pictures::{MAX_NODES, Node, Picture, PictureErr, Step, picture_of};
pub use runs::{Edge, Move, Run, run_edges};
pub use text::{MAX_TEXT, TextErr, border_words, dot_text, push_context, push_text, shape_word};
