//! Domains, read through their plain texts.

ghost use Rattle.std.specs.Prelude.{◌≡◌, ◌≤◌, ℕ, List, IfOk, IfErr, length};
ghost use Rattle.sexpr_text.specs.Passes.{IfFault};
ghost use Rattle.domain_read.specs.Plain.{IsPlainOf};
ghost use Rattle.pddl_ast.specs.Fits.{FitsDomain};
ghost use Rattle.pddl_ast.specs.Values.{domain_value};
ghost use Rattle.pddl_domain.specs.WordNames.{HasWordNames};
ghost use Rattle.domain_read.specs.Domains.{SpellsDomain, HasDomainFault};

use crate::plain_text::plain;
use pddl_ast::Domain;
use sexpr_text::{MAX_BYTES, ReadErr};
use std::alloc::Global;

// The plain text, or the first fault of the weights.
fn plain_text_of(alloc: Global, bytes: &[u8]) -> Result<Vec<u8>, ReadErr>
    requires { length bytes.now ≤ MAX_BYTES }
    ensures length { IfOk result (λ text. length text.items ≡ length bytes.now) }
    ensures plain { IfOk result (λ text. IsPlainOf bytes.now text.items) }
    ensures fault { IfErr result (λ e. IfFault e (λ f. HasDomainFault bytes.now f)) }
{
    plain(alloc, bytes)
}

// The domain that a plain text spells, or its fault: that of each text of which it is the plain one.
fn read_plain(alloc: Global, text: &[u8]) -> Result<Domain, ReadErr>
    requires { length text.now ≤ MAX_BYTES }
    ensures domain { (b : List ℕ) → IsPlainOf b text.now
        → IfOk result (λ d. SpellsDomain b (domain_value d)) }
    ensures fits { IfOk result (λ d. FitsDomain (domain_value d)) }
    ensures words { IfOk result (λ d. HasWordNames (domain_value d)) }
    ensures fault { (b : List ℕ) → IsPlainOf b text.now
        → IfErr result (λ e. IfFault e (λ f. HasDomainFault b f)) }
{
    pddl_domain::read_domain(alloc, text)
}

/// The domain that the bytes spell, or their fault, or want of memory.
///
/// The bytes either spell exactly one domain or have exactly one fault (`domain_or_fault`): the
/// first flaw of the first pass that has one. The passes are, in this order: the lexis; the list
/// that defines the domain; the weights of `probabilistic` effects; and those of a domain over the
/// forms that are meant (`pddl_domain`). A fault's place is in the bytes, and not in the plain text
/// through which they are read. For `n` bytes this takes about `n log n` steps. A domain that is
/// read fits: names of each kind differ and are words, numbers are in range, types form a tree, and
/// no tree is more than 200 deep.
pub fn read_domain(alloc: Global, bytes: &[u8]) -> Result<Domain, ReadErr>
    requires { length bytes.now ≤ MAX_BYTES }
    ensures domain { IfOk result (λ d. SpellsDomain bytes.now (domain_value d)) }
    ensures fits { IfOk result (λ d. FitsDomain (domain_value d)) }
    ensures words { IfOk result (λ d. HasWordNames (domain_value d)) }
    ensures fault { IfErr result (λ e. IfFault e (λ f. HasDomainFault bytes.now f)) }
{
    let text = plain_text_of(alloc, bytes)?;
    read_plain(alloc, &text)
}
