//! What the operations remember.
ghost use Rattle.std.specs.Prelude.{◌≡◌, ℕ, ◌+◌, List, IfSome, Contains};
ghost use Rattle.dd_nodes.specs.declared.node.Node.{Node};
ghost use Rattle.dd_nodes.specs.declared.node.Ref.{Ref as Number};
ghost use Rattle.dd_ops.specs.Answers.{IsAnswer, IsCofactor, IsReplaced};
ghost use Rattle.dd_ops.specs.Cached.{key_of_question, key_of_cofactor, key_of_subst};
ghost use Rattle.dd_ops.specs.Cached.{IsQuestion, IsFixed, IsOfCall, AddsPair, AddsPairs};
ghost use Rattle.dd_ops.specs.Cached.{Remembers, RemembersCofactors, RemembersReplaced};

use crate::question::Question;
use dd_cache::{Cache, Key};
use dd_nodes::Ref;

/// The remembered answer to a question.
pub fn recall_answer(cache: &mut Cache, q: Question) -> Option<Ref>
    ensures answer { IfSome result (λ r. (nodes : List Node) → Remembers nodes cache.old.pairs
        → IsAnswer nodes q r.0) }
    ensures same { cache.new.pairs ≡ cache.old.pairs }
{
    recall(cache, question_key(q))
}

/// Remembers an answer.
pub fn remember_answer(cache: &mut Cache, q: Question, r: Ref)
    ensures kept { (nodes : List Node) → Remembers nodes cache.old.pairs → IsAnswer nodes q r.0
        → Remembers nodes cache.new.pairs }
    ensures others { AddsPairs IsQuestion cache.old.pairs cache.new.pairs }
{
    remember(cache, question_key(q), r);
}

/// A variable that is fixed, and its value.
#[derive(Clone, Copy)]
pub struct Fixed {
    pub var: u32,
    pub value: bool,
}

/// The remembered number of `f` with a variable fixed.
pub fn recall_cofactor(cache: &mut Cache, f: Ref, fixed: Fixed) -> Option<Ref>
    ensures answer { IfSome result (λ r. (nodes : List Node)
        → RemembersCofactors nodes cache.old.pairs
        → IsCofactor nodes fixed.var fixed.value f.0 r.0) }
    ensures same { cache.new.pairs ≡ cache.old.pairs }
{
    recall(cache, cofactor_key(f, fixed))
}

/// Remembers the number of `f` with a variable fixed.
pub fn remember_cofactor(cache: &mut Cache, f: Ref, fixed: Fixed, r: Ref)
    ensures kept { (nodes : List Node) → RemembersCofactors nodes cache.old.pairs
        → IsCofactor nodes fixed.var fixed.value f.0 r.0
        → RemembersCofactors nodes cache.new.pairs }
    ensures others { AddsPairs IsFixed cache.old.pairs cache.new.pairs }
{
    remember(cache, cofactor_key(f, fixed), r);
}

/// The remembered number of `f` with the variables replaced that the list with a number has.
pub fn recall_replaced(cache: &mut Cache, call: u64, f: Ref) -> Option<Ref>
    ensures answer { IfSome result (λ r. (nodes : List Node) (map : List (ℕ × Number))
        → RemembersReplaced nodes map call cache.old.pairs → IsReplaced nodes map f.0 r.0) }
    ensures same { cache.new.pairs ≡ cache.old.pairs }
{
    recall(cache, subst_key(call, f))
}

/// Remembers the number of `f` with the variables replaced that the list with a number has.
pub fn remember_replaced(cache: &mut Cache, call: u64, f: Ref, r: Ref)
    ensures kept { (nodes : List Node) (map : List (ℕ × Number))
        → RemembersReplaced nodes map call cache.old.pairs → IsReplaced nodes map f.0 r.0
        → RemembersReplaced nodes map call cache.new.pairs }
    ensures others { AddsPairs (IsOfCall call) cache.old.pairs cache.new.pairs }
{
    remember(cache, subst_key(call, f), r);
}

/// The key of a question.
fn question_key(q: Question) -> Key
    ensures { result ≡ key_of_question q }
{
    Key {
        op: 0,
        a: q.f.0,
        b: q.g.0,
        c: q.h.0,
        call: 0,
    }
}

/// The key of `f` with a variable fixed.
fn cofactor_key(f: Ref, fixed: Fixed) -> Key
    ensures { result ≡ key_of_cofactor f.0 fixed.var fixed.value }
{
    Key {
        op: 1,
        a: f.0,
        b: fixed.var,
        c: if fixed.value { 1 } else { 0 },
        call: 0,
    }
}

/// The key of `f` with the variables replaced that the list with a number has.
fn subst_key(call: u64, f: Ref) -> Key
    ensures { result ≡ key_of_subst call f.0 }
{
    Key {
        op: 2,
        a: f.0,
        b: 0,
        c: 0,
        call,
    }
}

/// The number that the cache has for a key.
fn recall(cache: &mut Cache, key: Key) -> Option<Ref>
    ensures found { IfSome result (λ r. Contains cache.old.pairs (key, r.0)) }
    ensures same { cache.new.pairs ≡ cache.old.pairs }
{
    match cache.cached(&key) {
        Some(number) => Some(Ref(number)),
        None => None,
    }
}

/// Puts a number into the cache.
fn remember(cache: &mut Cache, key: Key, r: Ref)
    ensures { AddsPair key r.0 cache.old.pairs cache.new.pairs }
{
    cache.keep(key, r.0);
}
