//! Domains and problems as trees.

use sexpr_text::{Place, Text};
use smallvec::SmallVec;

/// The number of a type. Type 0 is `object`.
pub type TypeId = usize;

/// The number of a predicate, in the order in which they are declared.
pub type PredicateId = usize;

/// The number of an object: the domain's constants come first, then the problem's objects.
pub type ObjectId = usize;

/// What stands for an object in an atom.
#[derive(Clone, Copy, Debug)]
pub enum Term {
    /// The variable with this number among those in scope, counted from 0 with the outermost first.
    /// One that is hidden by another of its name keeps its number.
    Variable(usize),
    /// The constant or object with this number.
    Object(ObjectId),
}

impl Default for Term {
    /// The first object. It stands in the unused places of a short list alone.
    fn default() -> Term {
        Term::Object(0)
    }
}

/// The terms of an atom. Up to three need no allocation.
pub type Terms = SmallVec<Term, 3>;

/// The objects of an atom or of an action. Up to four need no allocation.
pub type Objects = SmallVec<ObjectId, 4>;

/// A condition.
#[derive(Debug, Drop)]
pub enum Formula {
    /// The predicate holds of the terms.
    Atom(PredicateId, Terms),
    /// Both terms are the same object.
    Equal(Term, Term),
    /// Each of them holds: true where there are none, which is how `()` is read.
    All(Vec<Formula>),
    /// One of them holds: false where there are none.
    Any(Vec<Formula>),
    Not(Box<Formula>),
    /// Where the first holds, the second does.
    Imply(Box<Formula>, Box<Formula>),
    /// The formula holds of some objects of these types, one variable for each.
    Exists(Vec<TypeId>, Box<Formula>),
    /// The formula holds of all objects of these types, one variable for each.
    Forall(Vec<TypeId>, Box<Formula>),
}

/// What an action does.
#[derive(Debug, Drop)]
pub enum Effect {
    /// Makes the atom true.
    Add(PredicateId, Terms),
    /// Makes the atom false, unless it is made true at the same time.
    Delete(PredicateId, Terms),
    /// Each of them: nothing where there are none, which is how `()` is read.
    Both(Vec<Effect>),
    /// One of them, and nobody chooses which. There is at least one.
    OneOf(Vec<Effect>),
    /// The effect where the formula holds before, else nothing.
    When(Formula, Box<Effect>),
    /// The effect for all objects of these types, one variable for each.
    Each(Vec<TypeId>, Box<Effect>),
}

/// An operator of computation tree logic with one part. The letter `A` or `E` says "on every path"
/// or "on some path", and the letters `x`, `f` and `g` are next, finally and globally.
#[derive(Clone, Copy, Debug)]
pub enum UnaryOperator {
    Ax,
    Ex,
    Af,
    Ef,
    Ag,
    Eg,
}

/// An operator of computation tree logic with two parts: until and weak until, on every path or on
/// some path.
#[derive(Clone, Copy, Debug)]
pub enum BinaryOperator {
    Au,
    Eu,
    Aw,
    Ew,
}

/// A goal in computation tree logic. Each part of it without operators is a `Plain` as large as can
/// be.
#[derive(Debug, Drop)]
pub enum Temporal {
    /// A condition on a state, without operators.
    Plain(Formula),
    Not(Box<Temporal>),
    /// Each of them is true.
    All(Vec<Temporal>),
    /// One of them is true.
    Any(Vec<Temporal>),
    /// Where the first is true, the second is.
    Imply(Box<Temporal>, Box<Temporal>),
    Unary(UnaryOperator, Box<Temporal>),
    Binary(BinaryOperator, Box<Temporal>, Box<Temporal>),
}

/// A constant or an object: its name and its type.
#[derive(Debug, Drop)]
pub struct Named {
    pub name: Text,
    pub type_id: TypeId,
}

/// A predicate: its name, and how many terms it takes. The types of its variables are not kept.
#[derive(Debug, Drop)]
pub struct Predicate {
    pub name: Text,
    pub arity: usize,
}

/// An action with parameters: its name, the types of its parameters, when it can be executed, and
/// what it does. The parameters are the variables 0, 1, .. of both trees.
#[derive(Debug, Drop)]
pub struct Schema {
    pub name: Text,
    pub parameters: Vec<TypeId>,
    pub precondition: Formula,
    pub effect: Effect,
}

/// A planning domain. `type_names` and `parents` go together: type `k` has the name `type_names[k]`
/// and the parent `parents[k]`. Type 0 is `object`, its own parent. The states are where the
/// invariant holds, which has no free variables.
#[derive(Debug, Drop)]
pub struct Domain {
    pub name: Text,
    pub type_names: Vec<Text>,
    pub parents: Vec<TypeId>,
    pub constants: Vec<Named>,
    pub predicates: Vec<Predicate>,
    pub actions: Vec<Schema>,
    /// The formula that is true of everything, where the domain gives none.
    pub invariant: Formula,
}

/// A predicate with an object for each of its terms.
#[derive(Debug, Drop)]
pub struct GroundAtom {
    pub predicate: PredicateId,
    pub objects: Objects,
}

/// An atom that holds (positive), or one that doesn't.
#[derive(Debug, Drop)]
pub struct InitialLiteral {
    pub atom: GroundAtom,
    pub positive: bool,
}

/// A planning problem of a domain. Each entry is a list of alternatives, each a list of literals:
/// one alternative of each entry holds initially, and nobody knows which.
#[derive(Debug, Drop)]
pub struct Problem {
    pub name: Text,
    pub objects: Vec<Named>,
    pub facts: Vec<GroundAtom>,
    pub entries: Vec<Vec<Vec<InitialLiteral>>>,
    pub goal: Option<Formula>,
    /// The goal in computation tree logic.
    pub ctl: Option<Temporal>,
    /// The place of the list that defines the problem.
    pub place: Place,
    /// The place of the goal in computation tree logic; `place` where there is none.
    pub ctl_place: Place,
}
