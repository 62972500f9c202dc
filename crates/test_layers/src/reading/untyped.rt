//! A type that makes a call which the format can't serve. Its shape names the error that it passes on;
//! the prover refuses its `deserialize` otherwise.

ghost use Rattle.std.specs.Prelude.{◌≡◌};
ghost use Rattle.postcard_wire.specs.declared.error.Error.TheVariants.{WontImplement};
ghost use Rattle.postcard_shape.specs.Only.{only};
ghost use Rattle.postcard_shape.specs.Rows.{none, group};

use crate::asserts::same;
use postcard_de::{Deserialize, Deserializer, Error, Flavor, Result, Shaped, from_bytes};
use std::alloc::Global;

/// A value of any type. No message says which, so none is read.
#[derive(Debug, Drop, PartialEq)]
struct Untyped;

impl Shaped for Untyped {
    ghost shape = { record (only (λ v. ⊥) (group none)) { other = λ e. e ≡ WontImplement } };
}

impl<'de> Deserialize<'de> for Untyped {
    fn deserialize<F: Flavor>(_alloc: Global, d: &mut Deserializer<'de, F>) -> Result<Self> {
        d.deserialize_any()?;
        Ok(Untyped)
    }
}

#[test]
fn passes_on_what_its_shape_names(rt: HostRuntime) {
    let read: Result<Untyped> = from_bytes(rt.alloc(), &[0x05]);
    same(&rt, read, Err(Error::WontImplement));
}
