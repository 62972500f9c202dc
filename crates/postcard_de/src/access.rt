//! The elements of a list, one by one.

ghost use Rattle.std.specs.Prelude.{◌≡◌, ℕ, ◌<◌, ◌≤◌, None, Some};
ghost use Rattle.postcard_de.specs.{DeserializesNext, source_of};

use crate::deserialize::Deserialize;
use crate::deserializer::Deserializer;
use postcard_de_flavors::Flavor;
use postcard_wire::Result;
use std::alloc::Global;
use std::marker::Model;

/// Reads the elements of a list, a tuple or a struct, and counts those that are left, as a contract
/// sees it.
#[derive(Drop)]
pub struct SeqAccess {
    len: usize,
}

impl Model for SeqAccess {
    ghost use Rattle.std.specs.Prelude.{ℕ};

    ghost Value = { ℕ };

    ghost view = { λ access. access.len };
}

impl SeqAccess {
    pub(crate) fn new(len: usize) -> SeqAccess
        ensures { result ≡ len }
    {
        SeqAccess { len }
    }

    pub(crate) fn left(&self) -> usize
        ensures { result ≡ self.now }
    {
        self.len
    }

    /// Reads the next element, or returns `None` and reads nothing if no element is left. Fails as
    /// reading the element does; the element then counts as read, too.
    pub fn next_element<'de, T: Deserialize<'de>, F: Flavor>(
        &mut self,
        alloc: Global,
        d: &mut Deserializer<'de, F>,
    ) -> Result<Option<T>>
        ensures { DeserializesNext F.Flavor T.shape self.old d.old result self.new d.new }
    {
        if self.len == 0 {
            return Ok(None);
        }
        self.len -= 1;
        let value = T::deserialize(alloc, d)?;
        Ok(Some(value))
    }

    /// Returns the number of elements left, or `None` if the source's `size_hint` is less than
    /// that.
    pub fn size_hint<'de, F: Flavor>(&self, d: &Deserializer<'de, F>) -> Option<usize>
        ensures few { (bytes : ℕ) → F.hint (source_of d.now) ≡ Some bytes → bytes < self.now →
            result ≡ None }
        ensures enough { (bytes : ℕ) → F.hint (source_of d.now) ≡ Some bytes → self.now ≤ bytes →
            result ≡ Some self.now }
        ensures no_hint { F.hint (source_of d.now) ≡ None → result ≡ Some self.now }
    {
        match d.flavor.size_hint() {
            Some(bytes) if bytes < self.len => None,
            _ => Some(self.len),
        }
    }
}
