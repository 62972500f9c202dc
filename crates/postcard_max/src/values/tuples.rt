//! The greatest sizes of tuples of one to twelve parts: the sums of those of the parts.

use crate::max_size::{MaxSize, MaxSizeRepr};

impl<A: MaxSize> MaxSizeRepr for (A,) {
    fn in_forms_repr(&self) {
        self.0.in_forms();
    }
}

impl<A: MaxSize, B: MaxSize> MaxSizeRepr for (A, B) {
    fn in_forms_repr(&self) {
        self.0.in_forms();
        self.1.in_forms();
    }
}

impl<A: MaxSize, B: MaxSize, C: MaxSize> MaxSizeRepr for (A, B, C) {
    fn in_forms_repr(&self) {
        self.0.in_forms();
        self.1.in_forms();
        self.2.in_forms();
    }
}

impl<A: MaxSize, B: MaxSize, C: MaxSize, D: MaxSize> MaxSizeRepr for (A, B, C, D) {
    fn in_forms_repr(&self) {
        self.0.in_forms();
        self.1.in_forms();
        self.2.in_forms();
        self.3.in_forms();
    }
}

impl<A: MaxSize, B: MaxSize, C: MaxSize, D: MaxSize, E: MaxSize> MaxSizeRepr for (A, B, C, D, E) {
    fn in_forms_repr(&self) {
        self.0.in_forms();
        self.1.in_forms();
        self.2.in_forms();
        self.3.in_forms();
        self.4.in_forms();
    }
}

impl<A: MaxSize, B: MaxSize, C: MaxSize, D: MaxSize, E: MaxSize, G: MaxSize> MaxSizeRepr
    for (A, B, C, D, E, G) {
    fn in_forms_repr(&self) {
        self.0.in_forms();
        self.1.in_forms();
        self.2.in_forms();
        self.3.in_forms();
        self.4.in_forms();
        self.5.in_forms();
    }
}

impl<A: MaxSize, B: MaxSize, C: MaxSize, D: MaxSize, E: MaxSize, G: MaxSize, H: MaxSize> MaxSizeRepr
    for (A, B, C, D, E, G, H) {
    fn in_forms_repr(&self) {
        self.0.in_forms();
        self.1.in_forms();
        self.2.in_forms();
        self.3.in_forms();
        self.4.in_forms();
        self.5.in_forms();
        self.6.in_forms();
    }
}

impl<
    A: MaxSize,
    B: MaxSize,
    C: MaxSize,
    D: MaxSize,
    E: MaxSize,
    G: MaxSize,
    H: MaxSize,
    I: MaxSize,
> MaxSizeRepr for (A, B, C, D, E, G, H, I) {
    fn in_forms_repr(&self) {
        self.0.in_forms();
        self.1.in_forms();
        self.2.in_forms();
        self.3.in_forms();
        self.4.in_forms();
        self.5.in_forms();
        self.6.in_forms();
        self.7.in_forms();
    }
}

impl<
    A: MaxSize,
    B: MaxSize,
    C: MaxSize,
    D: MaxSize,
    E: MaxSize,
    G: MaxSize,
    H: MaxSize,
    I: MaxSize,
    J: MaxSize,
> MaxSizeRepr for (A, B, C, D, E, G, H, I, J) {
    fn in_forms_repr(&self) {
        self.0.in_forms();
        self.1.in_forms();
        self.2.in_forms();
        self.3.in_forms();
        self.4.in_forms();
        self.5.in_forms();
        self.6.in_forms();
        self.7.in_forms();
        self.8.in_forms();
    }
}

impl<
    A: MaxSize,
    B: MaxSize,
    C: MaxSize,
    D: MaxSize,
    E: MaxSize,
    G: MaxSize,
    H: MaxSize,
    I: MaxSize,
    J: MaxSize,
    K: MaxSize,
> MaxSizeRepr for (A, B, C, D, E, G, H, I, J, K) {
    fn in_forms_repr(&self) {
        self.0.in_forms();
        self.1.in_forms();
        self.2.in_forms();
        self.3.in_forms();
        self.4.in_forms();
        self.5.in_forms();
        self.6.in_forms();
        self.7.in_forms();
        self.8.in_forms();
        self.9.in_forms();
    }
}

impl<
    A: MaxSize,
    B: MaxSize,
    C: MaxSize,
    D: MaxSize,
    E: MaxSize,
    G: MaxSize,
    H: MaxSize,
    I: MaxSize,
    J: MaxSize,
    K: MaxSize,
    L: MaxSize,
> MaxSizeRepr for (A, B, C, D, E, G, H, I, J, K, L) {
    fn in_forms_repr(&self) {
        self.0.in_forms();
        self.1.in_forms();
        self.2.in_forms();
        self.3.in_forms();
        self.4.in_forms();
        self.5.in_forms();
        self.6.in_forms();
        self.7.in_forms();
        self.8.in_forms();
        self.9.in_forms();
        self.10.in_forms();
    }
}

impl<
    A: MaxSize,
    B: MaxSize,
    C: MaxSize,
    D: MaxSize,
    E: MaxSize,
    G: MaxSize,
    H: MaxSize,
    I: MaxSize,
    J: MaxSize,
    K: MaxSize,
    L: MaxSize,
    M: MaxSize,
> MaxSizeRepr for (A, B, C, D, E, G, H, I, J, K, L, M) {
    fn in_forms_repr(&self) {
        self.0.in_forms();
        self.1.in_forms();
        self.2.in_forms();
        self.3.in_forms();
        self.4.in_forms();
        self.5.in_forms();
        self.6.in_forms();
        self.7.in_forms();
        self.8.in_forms();
        self.9.in_forms();
        self.10.in_forms();
        self.11.in_forms();
    }
}
