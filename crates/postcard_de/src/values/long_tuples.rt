//! Tuples of thirteen to sixteen parts, read as their first eight and the others.

use crate::repr::FromRepr;
use postcard_shape::Shaped;

impl<
    A: Shaped + Drop,
    B: Shaped + Drop,
    C: Shaped + Drop,
    D: Shaped + Drop,
    E: Shaped + Drop,
    G: Shaped + Drop,
    H: Shaped + Drop,
    I: Shaped + Drop,
    J: Shaped + Drop,
    K: Shaped + Drop,
    L: Shaped + Drop,
    M: Shaped + Drop,
    N: Shaped + Drop,
> FromRepr for (A, B, C, D, E, G, H, I, J, K, L, M, N) {
    fn from_repr((front, back): Self::As) -> Self {
        let (first, second, third, fourth, fifth, sixth, seventh, eighth) = front;
        let (ninth, tenth, eleventh, twelfth, thirteenth) = back;
        (
            first, second, third, fourth, fifth, sixth, seventh, eighth, ninth, tenth, eleventh,
            twelfth, thirteenth,
        )
    }
}

impl<
    A: Shaped + Drop,
    B: Shaped + Drop,
    C: Shaped + Drop,
    D: Shaped + Drop,
    E: Shaped + Drop,
    G: Shaped + Drop,
    H: Shaped + Drop,
    I: Shaped + Drop,
    J: Shaped + Drop,
    K: Shaped + Drop,
    L: Shaped + Drop,
    M: Shaped + Drop,
    N: Shaped + Drop,
    O: Shaped + Drop,
> FromRepr for (A, B, C, D, E, G, H, I, J, K, L, M, N, O) {
    fn from_repr((front, back): Self::As) -> Self {
        let (first, second, third, fourth, fifth, sixth, seventh, eighth) = front;
        let (ninth, tenth, eleventh, twelfth, thirteenth, fourteenth) = back;
        (
            first, second, third, fourth, fifth, sixth, seventh, eighth, ninth, tenth, eleventh,
            twelfth, thirteenth, fourteenth,
        )
    }
}

impl<
    A: Shaped + Drop,
    B: Shaped + Drop,
    C: Shaped + Drop,
    D: Shaped + Drop,
    E: Shaped + Drop,
    G: Shaped + Drop,
    H: Shaped + Drop,
    I: Shaped + Drop,
    J: Shaped + Drop,
    K: Shaped + Drop,
    L: Shaped + Drop,
    M: Shaped + Drop,
    N: Shaped + Drop,
    O: Shaped + Drop,
    P: Shaped + Drop,
> FromRepr for (A, B, C, D, E, G, H, I, J, K, L, M, N, O, P) {
    fn from_repr((front, back): Self::As) -> Self {
        let (first, second, third, fourth, fifth, sixth, seventh, eighth) = front;
        let (ninth, tenth, eleventh, twelfth, thirteenth, fourteenth, fifteenth) = back;
        (
            first, second, third, fourth, fifth, sixth, seventh, eighth, ninth, tenth, eleventh,
            twelfth, thirteenth, fourteenth, fifteenth,
        )
    }
}

impl<
    A: Shaped + Drop,
    B: Shaped + Drop,
    C: Shaped + Drop,
    D: Shaped + Drop,
    E: Shaped + Drop,
    G: Shaped + Drop,
    H: Shaped + Drop,
    I: Shaped + Drop,
    J: Shaped + Drop,
    K: Shaped + Drop,
    L: Shaped + Drop,
    M: Shaped + Drop,
    N: Shaped + Drop,
    O: Shaped + Drop,
    P: Shaped + Drop,
    Q: Shaped + Drop,
> FromRepr for (A, B, C, D, E, G, H, I, J, K, L, M, N, O, P, Q) {
    fn from_repr((front, back): Self::As) -> Self {
        let (first, second, third, fourth, fifth, sixth, seventh, eighth) = front;
        let (ninth, tenth, eleventh, twelfth, thirteenth, fourteenth, fifteenth, sixteenth) = back;
        (
            first, second, third, fourth, fifth, sixth, seventh, eighth, ninth, tenth, eleventh,
            twelfth, thirteenth, fourteenth, fifteenth, sixteenth,
        )
    }
}
