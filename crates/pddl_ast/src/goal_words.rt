//! What words mean in goals in computation tree logic.

ghost use Rattle.std.specs.Prelude.{◌≡◌};
ghost use Rattle.pddl_ast.specs.GoalWords as words;

use crate::keywords::spells;
use crate::trees::{BinaryOperator, UnaryOperator};
use sexpr_text::Text;

/// What a word means as the first item of a list in a goal.
#[derive(Clone, Copy, Debug)]
pub enum GoalWord {
    /// An operator with one goal after it.
    Unary(UnaryOperator),
    /// An operator with two goals after it.
    Binary(BinaryOperator),
    /// `and`
    And,
    /// `or`
    Or,
    /// `not`
    Not,
    /// `imply`
    Imply,
    /// `exists` or `forall`
    Quantifier,
    /// Every other word, which begins a formula.
    Plain,
}

/// What the word means as the first item of a list in a goal.
#[tactic(auto, unfolding(crate::specs::GoalWords::goal_word))]
pub fn goal_word(word: &Text) -> GoalWord
    ensures { result ≡ words.goal_word word.now }
{
    if spells(word, b"ax") {
        GoalWord::Unary(UnaryOperator::Ax)
    } else if spells(word, b"ex") {
        GoalWord::Unary(UnaryOperator::Ex)
    } else if spells(word, b"af") {
        GoalWord::Unary(UnaryOperator::Af)
    } else if spells(word, b"ef") {
        GoalWord::Unary(UnaryOperator::Ef)
    } else if spells(word, b"ag") {
        GoalWord::Unary(UnaryOperator::Ag)
    } else if spells(word, b"eg") {
        GoalWord::Unary(UnaryOperator::Eg)
    } else if spells(word, b"au") {
        GoalWord::Binary(BinaryOperator::Au)
    } else if spells(word, b"eu") {
        GoalWord::Binary(BinaryOperator::Eu)
    } else if spells(word, b"aw") {
        GoalWord::Binary(BinaryOperator::Aw)
    } else if spells(word, b"ew") {
        GoalWord::Binary(BinaryOperator::Ew)
    } else if spells(word, b"and") {
        GoalWord::And
    } else if spells(word, b"or") {
        GoalWord::Or
    } else if spells(word, b"not") {
        GoalWord::Not
    } else if spells(word, b"imply") {
        GoalWord::Imply
    } else if spells(word, b"exists") || spells(word, b"forall") {
        GoalWord::Quantifier
    } else {
        GoalWord::Plain
    }
}

/// Whether the word is an operator.
pub fn is_operator(word: &Text) -> bool
    ensures { result ≡ words.is_operator word.now }
{
    matches!(goal_word(word), GoalWord::Unary(_) | GoalWord::Binary(_))
}
