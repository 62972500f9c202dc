//! Tuples of thirteen to sixteen parts, written as their first eight and the others.

use crate::repr::SerializeRepr;
use crate::serialize::Serialize;
use crate::serializer::Serializer;
use crate::values::tuples::{serialize_eight, serialize_five, serialize_seven, serialize_six};
use postcard_ser_flavors::Flavor;
use postcard_wire::Result;

impl<
    A: Serialize,
    B: Serialize,
    C: Serialize,
    D: Serialize,
    E: Serialize,
    G: Serialize,
    H: Serialize,
    I: Serialize,
    J: Serialize,
    K: Serialize,
    L: Serialize,
    M: Serialize,
    N: Serialize,
> SerializeRepr for (A, B, C, D, E, G, H, I, J, K, L, M, N) {
    fn serialize_repr<F: Flavor>(&self, serializer: &mut Serializer<F>) -> Result<()> {
        let (
            first,
            second,
            third,
            fourth,
            fifth,
            sixth,
            seventh,
            eighth,
            ninth,
            tenth,
            eleventh,
            twelfth,
            thirteenth,
        ) = self;
        serialize_eight(
            first, second, third, fourth, fifth, sixth, seventh, eighth, serializer,
        )?;
        serialize_five(ninth, tenth, eleventh, twelfth, thirteenth, serializer)
    }
}

impl<
    A: Serialize,
    B: Serialize,
    C: Serialize,
    D: Serialize,
    E: Serialize,
    G: Serialize,
    H: Serialize,
    I: Serialize,
    J: Serialize,
    K: Serialize,
    L: Serialize,
    M: Serialize,
    N: Serialize,
    O: Serialize,
> SerializeRepr for (A, B, C, D, E, G, H, I, J, K, L, M, N, O) {
    fn serialize_repr<F: Flavor>(&self, serializer: &mut Serializer<F>) -> Result<()> {
        let (
            first,
            second,
            third,
            fourth,
            fifth,
            sixth,
            seventh,
            eighth,
            ninth,
            tenth,
            eleventh,
            twelfth,
            thirteenth,
            fourteenth,
        ) = self;
        serialize_eight(
            first, second, third, fourth, fifth, sixth, seventh, eighth, serializer,
        )?;
        serialize_six(
            ninth, tenth, eleventh, twelfth, thirteenth, fourteenth, serializer,
        )
    }
}

impl<
    A: Serialize,
    B: Serialize,
    C: Serialize,
    D: Serialize,
    E: Serialize,
    G: Serialize,
    H: Serialize,
    I: Serialize,
    J: Serialize,
    K: Serialize,
    L: Serialize,
    M: Serialize,
    N: Serialize,
    O: Serialize,
    P: Serialize,
> SerializeRepr for (A, B, C, D, E, G, H, I, J, K, L, M, N, O, P) {
    fn serialize_repr<F: Flavor>(&self, serializer: &mut Serializer<F>) -> Result<()> {
        let (
            first,
            second,
            third,
            fourth,
            fifth,
            sixth,
            seventh,
            eighth,
            ninth,
            tenth,
            eleventh,
            twelfth,
            thirteenth,
            fourteenth,
            fifteenth,
        ) = self;
        serialize_eight(
            first, second, third, fourth, fifth, sixth, seventh, eighth, serializer,
        )?;
        serialize_seven(
            ninth, tenth, eleventh, twelfth, thirteenth, fourteenth, fifteenth, serializer,
        )
    }
}

impl<
    A: Serialize,
    B: Serialize,
    C: Serialize,
    D: Serialize,
    E: Serialize,
    G: Serialize,
    H: Serialize,
    I: Serialize,
    J: Serialize,
    K: Serialize,
    L: Serialize,
    M: Serialize,
    N: Serialize,
    O: Serialize,
    P: Serialize,
    Q: Serialize,
> SerializeRepr for (A, B, C, D, E, G, H, I, J, K, L, M, N, O, P, Q) {
    fn serialize_repr<F: Flavor>(&self, serializer: &mut Serializer<F>) -> Result<()> {
        let (
            first,
            second,
            third,
            fourth,
            fifth,
            sixth,
            seventh,
            eighth,
            ninth,
            tenth,
            eleventh,
            twelfth,
            thirteenth,
            fourteenth,
            fifteenth,
            sixteenth,
        ) = self;
        serialize_eight(
            first, second, third, fourth, fifth, sixth, seventh, eighth, serializer,
        )?;
        serialize_eight(
            ninth, tenth, eleventh, twelfth, thirteenth, fourteenth, fifteenth, sixteenth,
            serializer,
        )
    }
}
