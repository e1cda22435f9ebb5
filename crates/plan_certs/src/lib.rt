//! Certificates that there is no plan of a class: sets of states by which it can be judged without a
//! search that no table is a solution.
//!
//! `specs/Certificates.antt` says which certificates are accepted, and what is wrong with the
//! others. That an accepted certificate is right is a law of its own
//! (`accepted_certificates_mean_no_plan`), whoever made the certificate. `specs/Texts.antt` says
//! which bytes are written of it, and `specs/Readings.antt` which bytes spell it and what is wrong
//! in the others: a grammar over the forms of a text, so that white space, comments and the case of
//! letters are free.
#![tactic(auto)]

mod certificates;
mod items;
mod judging;
mod laws;
mod reader;
mod text;

pub use certificates::{Certificate, CertificateRead, StateSet};
pub use judging::{is_no_way_out, set_holds, some_set_holds};
pub use laws::{
    accepted_certificates_mean_no_plan, certificate_or_fault, one_certificate, one_verdict,
    printed_where_none, written_spells,
};
pub use reader::read_cert;
pub use text::write_cert;
