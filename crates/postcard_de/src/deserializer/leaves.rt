//! The calls for values that have no parts, besides numbers, texts and byte strings.

ghost use Rattle.postcard_de.specs.{DeserializesNode, DeserializesNothing, boolean_node, char_node};

use crate::deserializer::Deserializer;
use postcard_de_flavors::Flavor;
use postcard_de_nodes::{choices, texts};
use postcard_shape::Shaped;
use postcard_wire::Result;

impl<'de, F: Flavor> Deserializer<'de, F> {
    /// Reads a `bool`: the byte 0 for `false`, or 1 for `true`. Also fails with
    /// `DeserializeBadBool` for any other byte, which is taken.
    pub fn deserialize_bool(&mut self) -> Result<bool>
        ensures { DeserializesNode F.Flavor boolean_node self.old result self.new }
    {
        choices::boolean(&mut self.flavor)
    }

    /// Reads a character: a length of at most 4, and that many bytes of UTF-8. Returns the first
    /// character; others are ignored, as in postcard 1.1.3. Also fails with `DeserializeBadChar`:
    /// if the length is above 4, which alone is taken then, if it is 0, or if the bytes aren't
    /// UTF-8, which are taken too.
    pub fn deserialize_char(&mut self) -> Result<char>
        ensures { DeserializesNode F.Flavor char_node self.old result self.new }
    {
        texts::character(&mut self.flavor)
    }

    /// Reads a unit, which has no bytes. Never fails.
    pub fn deserialize_unit(&mut self) -> Result<()>
        ensures { DeserializesNothing F.Flavor ⟦<() as Shaped>⟧.shape self.old result self.new }
    {
        Ok(())
    }

    /// Reads a struct without fields, which has no bytes. Never fails.
    pub fn deserialize_unit_struct(&mut self, _name: &str) -> Result<()>
        ensures { DeserializesNothing F.Flavor ⟦<() as Shaped>⟧.shape self.old result self.new }
    {
        self.deserialize_unit()
    }
}
