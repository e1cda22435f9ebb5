//! The variables in scope.

ghost use Rattle.std.specs.Prelude.{◌≡◌, ◌≤◌, ◌<◌, ◌-◌, ℕ, List, [], ◌∷◌, ◌++◌, None, Some, true};
ghost use Rattle.std.specs.Prelude.{length, take, OnOk, if◌then◌else◌};
ghost use Rattle.std.specs.Option.{is_some};
ghost use Rattle.std.specs.Str.{bytes_eq};
ghost use Rattle.pddl_ast.specs.Known.{variable_number};
ghost use Rattle.pddl_ast.specs.Scopes.{table_entry, meaning};

use indexmap::IndexMap;
use sexpr_text::Text;
use std::alloc::{AllocError, Global};
use std::marker::Model;

/// For each name that has been in scope, the number of the variable that it means, where it means
/// one. A look-up takes one step, whatever the number of names.
#[derive(Drop)]
struct Meanings {
    numbers: IndexMap<Vec<u8>, Option<usize>>,
}

impl Meanings {
    /// No name means a variable.
    fn new(alloc: Global) -> Meanings
        ensures { result.numbers.entries ≡ [] }
    {
        Meanings {
            numbers: IndexMap::new(alloc),
        }
    }

    /// The number of the variable that the name means.
    fn number_of(&self, name: &Text) -> Option<usize>
        ensures { result ≡ meaning self.now.numbers.entries name.now }
    {
        match self.numbers.get(name.as_bytes()) {
            Some(number) => *number,
            None => None,
        }
    }

    /// Makes room for what the name means. What names mean stays as it was.
    fn make_room(&mut self, alloc: Global, name: &Text) -> Result<(), AllocError>
        ensures same { (any : List ℕ) → meaning self.new.numbers.entries any
            ≡ meaning self.old.numbers.entries any }
        ensures room { OnOk result (is_some (table_entry self.new.numbers.entries name.now) ≡ true) }
    {
        if self.numbers.contains_key(name.as_bytes()) {
            return Ok(());
        }
        let bytes = Vec::from_slice(alloc, name.as_bytes())?;
        self.numbers.insert(bytes, None)?;
        Ok(())
    }

    /// Lets the name mean the variable with this number, or none.
    fn set(&mut self, name: &Text, number: Option<usize>)
        requires room { is_some (table_entry self.old.numbers.entries name.now) ≡ true }
        ensures { (any : List ℕ) → meaning self.new.numbers.entries any
            ≡ (if bytes_eq any name.now then number else meaning self.old.numbers.entries any) }
    {
        if let Some(place) = self.numbers.get_mut(name.as_bytes()) {
            *place = number;
        }
    }
}

/// A variable in scope: its name, and the number of the variable that the name means outside it.
#[derive(Drop)]
struct Variable {
    name: Text,
    hidden: Option<usize>,
}

/// The variables in scope. A clause sees the list of their names, the outermost first. A later one
/// hides an earlier one of its name, which keeps its number. What a name means is found by its
/// hash.
#[derive(Drop)]
pub struct Scope {
    variables: Vec<Variable>,
    meanings: Meanings,
}

impl Model for Scope {
    ghost use Rattle.std.specs.Prelude.{ℕ, List};
    ghost use Rattle.pddl_ast.specs.Scopes.{names_in, Tells};

    ghost Value = { List (List ℕ) };

    ghost view = { λ s. names_in s.variables.items };

    ghost invariant = { λ s. Tells s.variables.items s.meanings.numbers.entries };
}

impl Scope {
    /// No variables.
    pub fn new(alloc: Global) -> Scope
        ensures { result ≡ [] }
    {
        Scope {
            variables: Vec::new(alloc),
            meanings: Meanings::new(alloc),
        }
    }

    /// How many variables there are, the hidden ones too.
    pub fn len(&self) -> usize
        ensures { result ≡ length self.now }
    {
        self.variables.len()
    }

    /// The number of the variable that the name means: the innermost of that name.
    pub fn number_of(&self, name: &Text) -> Option<usize>
        ensures { result ≡ variable_number self.now name.now }
    {
        self.meanings.number_of(name)
    }

    /// Adds a variable inside the others. Fails only where memory runs out.
    pub fn enter(&mut self, alloc: Global, name: Text) -> Result<(), AllocError>
        ensures { OnOk result (self.new ≡ self.old ++ name ∷ []) }
    {
        let number = self.variables.len();
        self.meanings.make_room(alloc, &name)?;
        let hidden = self.meanings.number_of(&name);
        self.variables.push(Variable { name, hidden })?;
        let inner = &self.variables[number].name;
        self.meanings.set(inner, Some(number));
        Ok(())
    }

    /// Takes away the innermost variable.
    fn leave_innermost(&mut self)
        requires { 0 < length self.old }
        ensures { self.new ≡ take (length self.old - 1) self.old }
    {
        if let Some(variable) = self.variables.pop() {
            self.meanings.set(&variable.name, variable.hidden);
        }
    }

    /// Takes away all but so many of the outermost variables.
    pub fn leave(&mut self, len: usize)
        requires { len ≤ length self.old }
        ensures { self.new ≡ take len self.old }
    {
        while self.variables.len() > len {
            self.leave_innermost();
        }
    }
}
