//! A page to step through a plan: one HTML file with the picture of the plan as JSON, and a script
//! that plays it, perhaps beginning with the run of an explanation that is handed in. It needs no server, no
//! network and no other file.
//!
//! `specs/Pages.antt` says what the text is, byte for byte. The script and the styles stand in
//! `page/`, from which `page/make` writes the frame.
#![tactic(auto)]

mod escaped;
mod explanations;
mod frame;
mod laws;
mod pages;
mod plans;
mod told;
mod values;

pub use explanations::{Explanation, ShownRun, read_explanation};
pub use laws::no_markup_in_data;
pub use pages::page_text;
