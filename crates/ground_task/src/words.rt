//! The words that names are made of.

ghost use Rattle.std.specs.List.{All};
ghost use Rattle.std.specs.Prelude.{◌≡◌, ◌++◌, map, IfOk, OnOk};
ghost use Rattle.std.specs.Rc.{rc_str_bytes};
ghost use Rattle.ground_task.specs.NameWords.{AreWordsOf, listed};
ghost use Rattle.pddl_ast.specs.Values.{domain_value, problem_value, schema_value};
ghost use Rattle.pddl_system.specs.Names.{NamesAreWords};
ghost use Rattle.task_core.specs.Names.{IsWord};

use pddl_ast::{Domain, Named, Predicate, Problem, Schema};
use sexpr_text::Text;
use std::alloc::{AllocError, Global};
use std::rc::RcStr;

/// The names of the objects of a domain and a problem, the constants first, of the predicates and
/// of the actions, in their order. The names of fluents and of instances share these texts.
#[derive(Drop)]
pub(crate) struct NameWords {
    pub(crate) objects: Vec<RcStr>,
    pub(crate) predicates: Vec<RcStr>,
    pub(crate) actions: Vec<RcStr>,
}

impl NameWords {
    /// The words of a domain and a problem.
    pub(crate) fn of_trees(
        alloc: Global,
        domain: &Domain,
        problem: &Problem,
    ) -> Result<NameWords, AllocError>
        requires { NamesAreWords (domain_value domain.now) (problem_value problem.now) }
        ensures { IfOk result
            (AreWordsOf (domain_value domain.now) (problem_value problem.now)) }
    {
        let objects = object_words(alloc, &domain.constants, &problem.objects)?;
        let predicates = predicate_words(alloc, &domain.predicates)?;
        let actions = action_words(alloc, &domain.actions)?;
        Ok(NameWords {
            objects,
            predicates,
            actions,
        })
    }
}

/// The text of a word.
fn word(alloc: Global, text: &Text) -> Result<RcStr, AllocError>
    requires { IsWord text.now }
    ensures { IfOk result (λ word. rc_str_bytes word ≡ text.now) }
{
    Ok(RcStr::from_string(String::from_utf8_lossy(alloc, text.as_bytes())?)?)
}

/// The names of the constants, then those of the objects.
fn object_words(
    alloc: Global,
    constants: &[Named],
    objects: &[Named],
) -> Result<Vec<RcStr>, AllocError>
    requires { All (λ n. IsWord n.name) (constants.now ++ objects.now) }
    ensures { IfOk result (λ words.
        map rc_str_bytes words.items ≡ map (λ n. n.name) (constants.now ++ objects.now)) }
{
    let mut words = Vec::new(alloc);
    push_words(alloc, &mut words, constants)?;
    push_words(alloc, &mut words, objects)?;
    Ok(words)
}

/// Appends the names of constants or of objects.
fn push_words(alloc: Global, words: &mut Vec<RcStr>, named: &[Named]) -> Result<(), AllocError>
    requires { All (λ n. IsWord n.name) named.now }
    ensures { OnOk result (map rc_str_bytes words.new.items
        ≡ map rc_str_bytes words.old.items ++ map (λ n. n.name) named.now) }
{
    for one in named {
        words.push(word(alloc, &one.name)?)?;
    }
    Ok(())
}

/// The names of predicates.
fn predicate_words(alloc: Global, predicates: &[Predicate]) -> Result<Vec<RcStr>, AllocError>
    requires { All (λ q. IsWord q.name) predicates.now }
    ensures { IfOk result (λ words.
        map rc_str_bytes words.items ≡ map (λ q. q.name) predicates.now) }
{
    let mut words = Vec::new(alloc);
    for predicate in predicates {
        words.push(word(alloc, &predicate.name)?)?;
    }
    Ok(words)
}

/// The names of actions.
fn action_words(alloc: Global, actions: &[Schema]) -> Result<Vec<RcStr>, AllocError>
    requires { All (λ s. IsWord s.name) (map schema_value actions.now) }
    ensures { IfOk result (λ words.
        map rc_str_bytes words.items ≡ map (λ s. s.name) (map schema_value actions.now)) }
{
    let mut words = Vec::new(alloc);
    for action in actions {
        words.push(word(alloc, &action.name)?)?;
    }
    Ok(words)
}

/// The word of this number, shared with the others; the empty one past the last.
pub(crate) fn word_at(alloc: Global, words: &[RcStr], number: usize) -> Result<RcStr, AllocError>
    ensures { IfOk result (λ word. rc_str_bytes word ≡ listed words.now number) }
{
    if number < words.len() {
        return words[number].clone();
    }
    RcStr::from_str(alloc, "")
}
