//! Lists of byte strings.

ghost use Rattle.std.specs.Prelude.{◌≡◌, ◌∷◌, ◌++◌, [], IfOk, OnOk, OnErr, length, option_map};
ghost use Rattle.std.specs.List.{slice_get};

use crate::bytes::{Bytes, Mem};
use std::alloc::Global;
use std::marker::Model;

/// A list of byte strings, such as addresses. Contracts see it as a list of lists.
#[derive(Debug, Drop)]
pub struct Texts {
    texts: Vec<Bytes>,
}

impl Model for Texts {
    ghost use Rattle.std.specs.Prelude.{ℕ, List};

    ghost Value = { List (List ℕ) };

    ghost view = { λ t. t.texts.items };
}

impl Texts {
    /// No text.
    pub fn new(alloc: Global) -> Texts
        ensures { result ≡ [] }
    {
        Texts {
            texts: Vec::new(alloc),
        }
    }

    /// Appends a text. The one error is want of memory, which leaves the list as before.
    pub fn push(&mut self, text: Bytes) -> Result<(), Mem>
        ensures ok { OnOk result (self.new ≡ self.old ++ text ∷ []) }
        ensures err { OnErr result (self.new ≡ self.old) }
    {
        self.texts.push(text)?;
        Ok(())
    }

    /// How many there are.
    pub fn len(&self) -> usize
        ensures { result ≡ length self.now }
    {
        self.texts.len()
    }

    /// The text at a place, from 0; `None` exactly where there is none.
    pub fn get(&self, at: usize) -> Option<&[u8]>
        ensures { option_map (λ t. t.now) result ≡ slice_get self.now at }
    {
        match self.texts.get(at) {
            Some(text) => Some(text.as_slice()),
            None => None,
        }
    }

    /// A copy. The one error is want of memory.
    pub fn copy(&self, alloc: Global) -> Result<Texts, Mem>
        ensures { IfOk result (λ t. t ≡ self.now) }
    {
        let mut texts = Vec::new(alloc);
        for text in &self.texts {
            texts.push(text.copy(alloc)?)?;
        }
        Ok(Texts { texts })
    }
}
