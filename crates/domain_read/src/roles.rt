//! What a form of a domain's text stands for.

ghost use Rattle.std.specs.Prelude.{◌≡◌, true};
ghost use Rattle.sexpr_text.specs.Forest.{forest_of};
ghost use Rattle.domain_read.specs.Roles as roles;

use crate::weights::{Mass, mass_of, weighs_nothing};
use sexpr_text::{
    Form, Head, Text, View, begins_with, first_definition, first_group, head_of, is_definition,
};

/// What the next form of a row is.
#[derive(Clone, Copy, Debug)]
pub enum Role {
    /// A form of the text.
    Text,
    /// A form in which nothing stands at an effect's place.
    Passed,
    /// A form of the list that defines the domain.
    Define,
    /// The word `:action`.
    Action,
    /// The name of an action.
    Name,
    /// A form of an action that does not follow the word `:effect`.
    Key,
    /// A form of an action that follows the word `:effect`, an effect.
    Value,
    /// The word `and` or `oneof` before effects.
    Branches,
    /// An effect among others.
    Effects,
    /// The word `when` or `forall` before an effect.
    Scope,
    /// The condition or the variables of an effect.
    Bound,
    /// The effect under a condition or variables.
    Body,
    /// The word `probabilistic` of a recognised list; whether mass is missing.
    Choice(bool),
    /// A weight.
    Weight,
    /// An effect whose weight is not 0.
    Kept,
    /// An effect whose weight is 0.
    Dropped,
}

// What follows a word in the place of an action's key.
fn after_key(text: &Text) -> Role
    ensures { result ≡ roles.after_key text.now }
{
    if text.is(b":effect") {
        Role::Value
    } else {
        Role::Key
    }
}

// What follows a weight.
fn after_weight(text: &Text) -> Role
    ensures { result ≡ roles.after_weight text.now }
{
    if weighs_nothing(text.as_bytes()) {
        Role::Dropped
    } else {
        Role::Kept
    }
}

// Whether mass is missing.
fn is_missing(mass: Option<Mass>) -> bool
    ensures { result ≡ roles.is_missing mass }
{
    match mass {
        Some(Mass::Missing) => true,
        Some(Mass::Whole) | Some(Mass::Over) | None => false,
    }
}

// The role of the parts of a list at an effect's place.
fn effect_role(parts: &[Form]) -> Role
    ensures { result ≡ roles.effect_role (forest_of parts.now) }
{
    let Head::Word(_, text, rest) = head_of(parts) else {
        return Role::Passed;
    };
    if text.is(b"and") || text.is(b"oneof") {
        Role::Branches
    } else if text.is(b"when") || text.is(b"forall") {
        Role::Scope
    } else if text.is(b"probabilistic") {
        Role::Choice(is_missing(mass_of(rest)))
    } else {
        Role::Passed
    }
}

impl Role {
    /// What follows a word.
    pub fn after_word(self, text: &Text) -> Role
        ensures { result ≡ roles.after_word self text.now }
    {
        match self {
            Role::Text => Role::Text,
            Role::Passed | Role::Body => Role::Passed,
            Role::Define => Role::Define,
            Role::Action => Role::Name,
            Role::Name => Role::Key,
            Role::Key | Role::Value => after_key(text),
            Role::Branches | Role::Effects => Role::Effects,
            Role::Scope => Role::Bound,
            Role::Bound => Role::Body,
            Role::Weight => after_weight(text),
            Role::Choice(_) | Role::Kept | Role::Dropped => Role::Weight,
        }
    }

    /// What follows a group with these parts.
    pub fn after_group(self, parts: &[Form]) -> Role
        ensures { result ≡ roles.after_group self (forest_of parts.now) }
    {
        match self {
            Role::Text => {
                if is_definition(parts, b"domain") {
                    Role::Passed
                } else {
                    Role::Text
                }
            }
            Role::Passed | Role::Body => Role::Passed,
            Role::Define => Role::Define,
            Role::Action => Role::Name,
            Role::Name | Role::Key | Role::Value => Role::Key,
            Role::Branches | Role::Effects => Role::Effects,
            Role::Scope => Role::Bound,
            Role::Bound => Role::Body,
            Role::Weight => Role::Kept,
            Role::Choice(_) | Role::Kept | Role::Dropped => Role::Weight,
        }
    }

    /// Whether a form of this role is left out of the plain text.
    pub fn is_left_out(self) -> bool
        ensures { result ≡ roles.is_left_out self }
    {
        matches!(self, Role::Weight | Role::Dropped)
    }

    /// The role of the parts of a group of this role.
    pub fn inner(self, parts: &[Form]) -> Role
        ensures { result ≡ roles.inner_role self (forest_of parts.now) }
    {
        match self {
            Role::Text => {
                if is_definition(parts, b"domain") {
                    Role::Define
                } else {
                    Role::Passed
                }
            }
            Role::Define => {
                if begins_with(parts, b":action") {
                    Role::Action
                } else {
                    Role::Passed
                }
            }
            Role::Value | Role::Effects | Role::Body | Role::Kept => effect_role(parts),
            _ => Role::Passed,
        }
    }
}

// Whether a section declares a predicate of the name `probabilistic`.
fn declares(section: &[Form]) -> bool
    ensures { result ≡ roles.declares (forest_of section.now) }
{
    begins_with(section, b":predicates") && first_group(section, b"probabilistic").is_some()
}

// Whether a section of the row does.
fn is_declared_in(sections: &[Form]) -> bool
    ensures { result ≡ roles.is_declared_in (forest_of sections.now) }
{
    for form in sections {
        if let View::Group(_, parts) = form.view() {
            if declares(parts) {
                return true;
            }
        }
    }
    false
}

// Whether a predicate of the domain that is read has the name `probabilistic`.
fn is_declared(forms: &[Form]) -> bool
    ensures { result ≡ roles.is_declared (forest_of forms.now) }
{
    match first_definition(forms, b"domain") {
        Some((_, parts)) => is_declared_in(parts),
        None => false,
    }
}

/// The role of the forms of a text.
pub fn text_role(forms: &[Form]) -> Role
    ensures { result ≡ roles.text_role (forest_of forms.now) }
{
    if is_declared(forms) {
        Role::Passed
    } else {
        Role::Text
    }
}
