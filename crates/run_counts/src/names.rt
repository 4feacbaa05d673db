//! The names of messages that came.
ghost use Rattle.std.specs.Prelude.{◌≡◌, Some, None, IfOk, OnOk, OnErr, length, take, string_bytes};
ghost use Rattle.run_counts.specs.Names as said;

use std::alloc::{AllocError, Allocator, Global};

/// The names of messages that came, each once, in the order in which they came first.
#[derive(Drop)]
pub struct Names<A: Allocator = Global> {
    texts: Vec<String<A>, A>,
}

/// Whether a text is this name.
fn is_name<A: Allocator>(text: &String<A>, name: &str) -> bool
    ensures { result ≡ said.is_name name.now (string_bytes text.now) }
{
    text.as_str() == name
}

/// The place of a name.
fn place_of<A: Allocator>(texts: &[String<A>], name: &str) -> Option<usize>
    ensures { result ≡ said.place_in texts.now name.now }
{
    texts.iter().position(|text| is_name(text, name))
}

impl<A: Allocator + Copy> Names<A> {
    /// None came yet.
    pub fn new(alloc: A) -> Names<A> {
        Names {
            texts: Vec::new(alloc),
        }
    }

    /// The names, each at its place.
    pub fn texts(&self) -> &[String<A>] {
        &self.texts
    }

    /// The place of a name, which is kept where it came for the first time. All others stay at theirs.
    pub fn place(&mut self, alloc: A, name: &str) -> Result<usize, AllocError>
        ensures place { IfOk result (λ place. said.place_in self.new.texts.items name.now ≡ Some place) }
        ensures others { OnOk result (take (length self.old.texts.items) self.new.texts.items ≡ self.old.texts.items) }
        ensures unchanged { OnErr result (self.new.texts.items ≡ self.old.texts.items) }
        ensures memory { OnErr result (said.place_in self.old.texts.items name.now ≡ None) }
    {
        match place_of(&self.texts, name) {
            Some(place) => Ok(place),
            None => {
                let place = self.texts.len();
                self.texts.push(String::from_str(alloc, name)?)?;
                Ok(place)
            }
        }
    }
}
