//! Names by number.

ghost use Rattle.std.specs.Prelude.{◌≡◌, [], ◌∷◌, ◌++◌, not, length, IfOk, OnOk, if◌then◌else◌};
ghost use Rattle.std.specs.List.{list_any};
ghost use Rattle.std.specs.Str.{bytes_eq};
ghost use Rattle.pddl_ast.specs.Known.{number_in};

use indexmap::IndexSet;
use sexpr_text::Text;
use std::alloc::{AllocError, Global};
use std::marker::Model;

/// Different names in the order in which they were added, which gives them their numbers from 0 on.
/// A clause sees the list of the names. A look-up takes one step, whatever the number of names.
#[derive(Drop)]
pub struct NameTable {
    names: IndexSet<Vec<u8>>,
}

impl Model for NameTable {
    ghost use Rattle.std.specs.Prelude.{ℕ, List, map};

    ghost Value = { List (List ℕ) };

    ghost view = { λ t. map (λ name. name.items) t.names.keys };
}

impl NameTable {
    /// No names.
    pub fn new(alloc: Global) -> NameTable
        ensures { result ≡ [] }
    {
        NameTable {
            names: IndexSet::new(alloc),
        }
    }

    /// How many names there are.
    pub fn len(&self) -> usize
        ensures { result ≡ length self.now }
    {
        self.names.len()
    }

    /// The number of a name, where it is in the table.
    pub fn number_of(&self, name: &Text) -> Option<usize>
        ensures { result ≡ number_in self.now name.now }
    {
        self.names.get_index_of(name.as_bytes())
    }

    /// Whether the name is in the table.
    pub fn contains(&self, name: &Text) -> bool
        ensures { result ≡ list_any (bytes_eq name.now) self.now }
    {
        self.names.contains(name.as_bytes())
    }

    /// Adds the name after the others, unless it is there already; tells whether it is new. Fails
    /// only where memory runs out.
    pub fn add(&mut self, alloc: Global, name: &Text) -> Result<bool, AllocError>
        ensures new { IfOk result (λ is_new. is_new ≡ not (list_any (bytes_eq name.now) self.old)) }
        ensures names { OnOk result (self.new
            ≡ (if list_any (bytes_eq name.now) self.old then self.old
            else self.old ++ name.now ∷ [])) }
    {
        let bytes = Vec::from_slice(alloc, name.as_bytes())?;
        let (_, is_new) = self.names.insert_full(bytes)?;
        Ok(is_new)
    }
}
