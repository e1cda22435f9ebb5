//! The groups that are open while a text is read, and the forms read so far.

ghost use Rattle.std.specs.Prelude.{◌≡◌, ◌<◌, List, [], ◌∷◌, ◌++◌, length, MatchOption, OnOk};
ghost use Rattle.sexpr_text.specs.Forest.{nothing, word, group, join};
ghost use Rattle.sexpr_text.specs.Pending.{Pending, pending_in, trees_in};

use crate::forms::{Form, Place, Span};
use crate::texts::Text;
use std::alloc::{AllocError, Global};
use std::mem;

// A parenthesis that is open, with the forms that stand before it in its list.
#[derive(Drop)]
pub struct Open {
    pub start: u32,
    pub place: Place,
    pub before: Vec<Form>,
}

// The open parentheses, the outermost first, and the forms since the innermost one.
#[derive(Drop)]
pub struct Nest {
    pub pending: Vec<Open>,
    pub parts: Vec<Form>,
}

impl Nest {
    // Nothing is open, and there are no forms.
    pub fn new(alloc: Global) -> Nest
        ensures pending { pending_in result ≡ [] }
        ensures trees { trees_in result ≡ nothing }
    {
        Nest {
            pending: Vec::new(alloc),
            parts: Vec::new(alloc),
        }
    }

    // How many parentheses are open.
    pub fn depth(&self) -> usize
        ensures { result ≡ length (pending_in self.now) }
    {
        self.pending.len()
    }

    // The place of the outermost open parenthesis, if there is one.
    pub fn first_open(&self) -> Option<Place>
        ensures { MatchOption result (pending_in self.now ≡ [])
            (λ place. (first : Pending) × (others : List Pending)
            × (pending_in self.now ≡ first ∷ others) × (place ≡ first.place)) }
    {
        match self.pending.first() {
            Some(open) => Some(open.place),
            None => None,
        }
    }

    // Adds a word after the other forms.
    pub fn add_word(&mut self, span: Span, text: Text) -> Result<(), AllocError>
        ensures pending { OnOk result (pending_in self.new ≡ pending_in self.old) }
        ensures trees { OnOk result
            (trees_in self.new ≡ join (trees_in self.old) (word span text nothing)) }
    {
        self.parts.push(Form::Word(span, text))?;
        Ok(())
    }

    // Opens a group at this offset.
    pub fn open(&mut self, alloc: Global, start: u32, place: Place) -> Result<(), AllocError>
        ensures pending { let opened : Pending = record {
          start = start;
          place = place;
          before = trees_in self.old;
        } in
            OnOk result (pending_in self.new ≡ pending_in self.old ++ opened ∷ []) }
        ensures trees { OnOk result (trees_in self.new ≡ nothing) }
    {
        let before = mem::replace(&mut self.parts, Vec::new(alloc));
        self.pending.push(Open {
            start,
            place,
            before,
        })?;
        Ok(())
    }

    // Closes the innermost group, whose last byte is the one before this offset.
    pub fn close(&mut self, end: u32) -> Result<(), AllocError>
        requires { 0 < length (pending_in self.old) }
        ensures { OnOk result ((opened : Pending)
            × (pending_in self.old ≡ pending_in self.new ++ opened ∷ [])
            × (trees_in self.new
            ≡ join opened.before
            (group (record { start = opened.start; end = end; place = opened.place })
            (trees_in self.old) nothing))) }
    {
        let opened = self.pending.pop().unwrap();
        let parts = mem::replace(&mut self.parts, opened.before);
        let span = Span {
            start: opened.start,
            end,
            place: opened.place,
        };
        self.parts.push(Form::Group(span, parts))?;
        Ok(())
    }
}
