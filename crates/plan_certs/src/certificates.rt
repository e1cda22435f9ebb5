//! The certificates.

use sexpr_text::Place;
use task_core::{Class, Lit};

/// A set of states: those that some of its cubes matches.
#[derive(Debug, Drop)]
pub struct StateSet {
    pub cubes: Vec<Vec<Lit>>,
}

/// A certificate that there is no plan of a class: its sets, in their order. A weak and a strong
/// one have one set, a cyclic one has at least one.
#[derive(Debug, Drop)]
pub struct Certificate {
    pub class: Class,
    pub sets: Vec<StateSet>,
}

/// The certificate that a text spells, and the place of its opening parenthesis.
#[derive(Debug, Drop)]
pub struct CertificateRead {
    pub certificate: Certificate,
    pub place: Place,
}
