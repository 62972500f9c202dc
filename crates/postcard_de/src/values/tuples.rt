//! Tuples of one to twelve parts: read as parts in a row.

use crate::repr::FromRepr;
use postcard_shape::{Part, Shaped};

impl<A: Shaped + Drop> FromRepr for (A,) {
    fn from_repr(Part(first, ()): Self::As) -> Self {
        (first,)
    }
}

impl<A: Shaped + Drop, B: Shaped + Drop> FromRepr for (A, B) {
    fn from_repr(Part(first, Part(second, ())): Self::As) -> Self {
        (first, second)
    }
}

impl<A: Shaped + Drop, B: Shaped + Drop, C: Shaped + Drop> FromRepr for (A, B, C) {
    fn from_repr(Part(first, Part(second, Part(third, ()))): Self::As) -> Self {
        (first, second, third)
    }
}

impl<A: Shaped + Drop, B: Shaped + Drop, C: Shaped + Drop, D: Shaped + Drop> FromRepr
    for (A, B, C, D) {
    fn from_repr(Part(first, Part(second, Part(third, Part(fourth, ())))): Self::As) -> Self {
        (first, second, third, fourth)
    }
}

impl<
    A: Shaped + Drop,
    B: Shaped + Drop,
    C: Shaped + Drop,
    D: Shaped + Drop,
    E: Shaped + Drop,
> FromRepr for (A, B, C, D, E) {
    fn from_repr(
        Part(first, Part(second, Part(third, Part(fourth, Part(fifth, ()))))): Self::As,
    ) -> Self {
        (first, second, third, fourth, fifth)
    }
}

impl<
    A: Shaped + Drop,
    B: Shaped + Drop,
    C: Shaped + Drop,
    D: Shaped + Drop,
    E: Shaped + Drop,
    G: Shaped + Drop,
> FromRepr for (A, B, C, D, E, G) {
    fn from_repr(
        Part(
            first,
            Part(second, Part(third, Part(fourth, Part(fifth, Part(sixth, ()))))),
        ): Self::As,
    ) -> Self {
        (first, second, third, fourth, fifth, sixth)
    }
}

impl<
    A: Shaped + Drop,
    B: Shaped + Drop,
    C: Shaped + Drop,
    D: Shaped + Drop,
    E: Shaped + Drop,
    G: Shaped + Drop,
    H: Shaped + Drop,
> FromRepr for (A, B, C, D, E, G, H) {
    fn from_repr(
        Part(
            first,
            Part(second, Part(third, Part(fourth, Part(fifth, Part(sixth, Part(seventh, ())))))),
        ): Self::As,
    ) -> Self {
        (first, second, third, fourth, fifth, sixth, seventh)
    }
}

impl<
    A: Shaped + Drop,
    B: Shaped + Drop,
    C: Shaped + Drop,
    D: Shaped + Drop,
    E: Shaped + Drop,
    G: Shaped + Drop,
    H: Shaped + Drop,
    I: Shaped + Drop,
> FromRepr for (A, B, C, D, E, G, H, I) {
    fn from_repr(
        Part(
            first,
            Part(
                second,
                Part(
                    third,
                    Part(fourth, Part(fifth, Part(sixth, Part(seventh, Part(eighth, ()))))),
                ),
            ),
        ): Self::As,
    ) -> Self {
        (first, second, third, fourth, fifth, sixth, seventh, eighth)
    }
}

impl<
    A: Shaped + Drop,
    B: Shaped + Drop,
    C: Shaped + Drop,
    D: Shaped + Drop,
    E: Shaped + Drop,
    G: Shaped + Drop,
    H: Shaped + Drop,
    I: Shaped + Drop,
    J: Shaped + Drop,
> FromRepr for (A, B, C, D, E, G, H, I, J) {
    fn from_repr(
        Part(
            first,
            Part(
                second,
                Part(
                    third,
                    Part(
                        fourth,
                        Part(fifth, Part(sixth, Part(seventh, Part(eighth, Part(ninth, ()))))),
                    ),
                ),
            ),
        ): Self::As,
    ) -> Self {
        (
            first, second, third, fourth, fifth, sixth, seventh, eighth, ninth,
        )
    }
}

impl<
    A: Shaped + Drop,
    B: Shaped + Drop,
    C: Shaped + Drop,
    D: Shaped + Drop,
    E: Shaped + Drop,
    G: Shaped + Drop,
    H: Shaped + Drop,
    I: Shaped + Drop,
    J: Shaped + Drop,
    K: Shaped + Drop,
> FromRepr for (A, B, C, D, E, G, H, I, J, K) {
    fn from_repr(
        Part(
            first,
            Part(
                second,
                Part(
                    third,
                    Part(
                        fourth,
                        Part(
                            fifth,
                            Part(sixth, Part(seventh, Part(eighth, Part(ninth, Part(tenth, ()))))),
                        ),
                    ),
                ),
            ),
        ): Self::As,
    ) -> Self {
        (
            first, second, third, fourth, fifth, sixth, seventh, eighth, ninth, tenth,
        )
    }
}

impl<
    A: Shaped + Drop,
    B: Shaped + Drop,
    C: Shaped + Drop,
    D: Shaped + Drop,
    E: Shaped + Drop,
    G: Shaped + Drop,
    H: Shaped + Drop,
    I: Shaped + Drop,
    J: Shaped + Drop,
    K: Shaped + Drop,
    L: Shaped + Drop,
> FromRepr for (A, B, C, D, E, G, H, I, J, K, L) {
    fn from_repr(
        Part(
            first,
            Part(
                second,
                Part(
                    third,
                    Part(
                        fourth,
                        Part(
                            fifth,
                            Part(
                                sixth,
                                Part(
                                    seventh,
                                    Part(eighth, Part(ninth, Part(tenth, Part(eleventh, ())))),
                                ),
                            ),
                        ),
                    ),
                ),
            ),
        ): Self::As,
    ) -> Self {
        (
            first, second, third, fourth, fifth, sixth, seventh, eighth, ninth, tenth, eleventh,
        )
    }
}

impl<
    A: Shaped + Drop,
    B: Shaped + Drop,
    C: Shaped + Drop,
    D: Shaped + Drop,
    E: Shaped + Drop,
    G: Shaped + Drop,
    H: Shaped + Drop,
    I: Shaped + Drop,
    J: Shaped + Drop,
    K: Shaped + Drop,
    L: Shaped + Drop,
    M: Shaped + Drop,
> FromRepr for (A, B, C, D, E, G, H, I, J, K, L, M) {
    fn from_repr(
        Part(
            first,
            Part(
                second,
                Part(
                    third,
                    Part(
                        fourth,
                        Part(
                            fifth,
                            Part(
                                sixth,
                                Part(
                                    seventh,
                                    Part(
                                        eighth,
                                        Part(ninth, Part(tenth, Part(eleventh, Part(twelfth, ())))),
                                    ),
                                ),
                            ),
                        ),
                    ),
                ),
            ),
        ): Self::As,
    ) -> Self {
        (
            first, second, third, fourth, fifth, sixth, seventh, eighth, ninth, tenth, eleventh,
            twelfth,
        )
    }
}
