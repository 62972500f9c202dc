//! The shapes of tuples of one to twelve parts: that of the parts in a row.

use crate::rows::Part;
use crate::shape::{Repr, Shaped};

impl<A: Shaped> Repr for (A,) {
    type As = Part<A, ()>;

    ghost repr = { λ v. (v.0, tt) };
}

impl<A: Shaped, B: Shaped> Repr for (A, B) {
    type As = Part<A, Part<B, ()>>;

    ghost repr = { λ v. (v.0, (v.1, tt)) };
}

impl<A: Shaped, B: Shaped, C: Shaped> Repr for (A, B, C) {
    type As = Part<A, Part<B, Part<C, ()>>>;

    ghost repr = { λ v. (v.0, (v.1, (v.2, tt))) };
}

impl<A: Shaped, B: Shaped, C: Shaped, D: Shaped> Repr for (A, B, C, D) {
    type As = Part<A, Part<B, Part<C, Part<D, ()>>>>;

    ghost repr = { λ v. (v.0, (v.1, (v.2, (v.3, tt)))) };
}

impl<A: Shaped, B: Shaped, C: Shaped, D: Shaped, E: Shaped> Repr for (A, B, C, D, E) {
    type As = Part<A, Part<B, Part<C, Part<D, Part<E, ()>>>>>;

    ghost repr = { λ v. (v.0, (v.1, (v.2, (v.3, (v.4, tt))))) };
}

impl<A: Shaped, B: Shaped, C: Shaped, D: Shaped, E: Shaped, G: Shaped> Repr for (A, B, C, D, E, G) {
    type As = Part<A, Part<B, Part<C, Part<D, Part<E, Part<G, ()>>>>>>;

    ghost repr = { λ v. (v.0, (v.1, (v.2, (v.3, (v.4, (v.5, tt)))))) };
}

impl<A: Shaped, B: Shaped, C: Shaped, D: Shaped, E: Shaped, G: Shaped, H: Shaped> Repr
    for (A, B, C, D, E, G, H) {
    type As = Part<A, Part<B, Part<C, Part<D, Part<E, Part<G, Part<H, ()>>>>>>>;

    ghost repr = { λ v. (v.0, (v.1, (v.2, (v.3, (v.4, (v.5, (v.6, tt))))))) };
}

impl<A: Shaped, B: Shaped, C: Shaped, D: Shaped, E: Shaped, G: Shaped, H: Shaped, I: Shaped> Repr
    for (A, B, C, D, E, G, H, I) {
    type As = Part<A, Part<B, Part<C, Part<D, Part<E, Part<G, Part<H, Part<I, ()>>>>>>>>;

    ghost repr = { λ v. (v.0, (v.1, (v.2, (v.3, (v.4, (v.5, (v.6, (v.7, tt)))))))) };
}

impl<
    A: Shaped,
    B: Shaped,
    C: Shaped,
    D: Shaped,
    E: Shaped,
    G: Shaped,
    H: Shaped,
    I: Shaped,
    J: Shaped,
> Repr for (A, B, C, D, E, G, H, I, J) {
    type As = Part<A, Part<B, Part<C, Part<D, Part<E, Part<G, Part<H, Part<I, Part<J, ()>>>>>>>>>;

    ghost repr = { λ v. (v.0, (v.1, (v.2, (v.3, (v.4, (v.5, (v.6, (v.7, (v.8, tt))))))))) };
}

impl<
    A: Shaped,
    B: Shaped,
    C: Shaped,
    D: Shaped,
    E: Shaped,
    G: Shaped,
    H: Shaped,
    I: Shaped,
    J: Shaped,
    K: Shaped,
> Repr for (A, B, C, D, E, G, H, I, J, K) {
    type As = Part<
        A,
        Part<B, Part<C, Part<D, Part<E, Part<G, Part<H, Part<I, Part<J, Part<K, ()>>>>>>>>>,
    >;

    ghost repr = { λ v. (v.0, (v.1, (v.2, (v.3, (v.4, (v.5, (v.6, (v.7, (v.8, (v.9, tt)))))))))) };
}

impl<
    A: Shaped,
    B: Shaped,
    C: Shaped,
    D: Shaped,
    E: Shaped,
    G: Shaped,
    H: Shaped,
    I: Shaped,
    J: Shaped,
    K: Shaped,
    L: Shaped,
> Repr for (A, B, C, D, E, G, H, I, J, K, L) {
    type As = Part<
        A,
        Part<
            B,
            Part<C, Part<D, Part<E, Part<G, Part<H, Part<I, Part<J, Part<K, Part<L, ()>>>>>>>>>,
        >,
    >;

    ghost repr = { λ v.
        (v.0, (v.1, (v.2, (v.3, (v.4, (v.5, (v.6, (v.7, (v.8, (v.9, (v.10, tt))))))))))) };
}

impl<
    A: Shaped,
    B: Shaped,
    C: Shaped,
    D: Shaped,
    E: Shaped,
    G: Shaped,
    H: Shaped,
    I: Shaped,
    J: Shaped,
    K: Shaped,
    L: Shaped,
    M: Shaped,
> Repr for (A, B, C, D, E, G, H, I, J, K, L, M) {
    type As = Part<
        A,
        Part<
            B,
            Part<
                C,
                Part<D, Part<E, Part<G, Part<H, Part<I, Part<J, Part<K, Part<L, Part<M, ()>>>>>>>>>,
            >,
        >,
    >;

    ghost repr = { λ v.
        (v.0, (v.1, (v.2, (v.3, (v.4, (v.5, (v.6, (v.7, (v.8, (v.9, (v.10, (v.11, tt)))))))))))) };
}
