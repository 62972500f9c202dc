//! The schemas of tuples of thirteen to sixteen parts: that of all parts in a row.

ghost use Rattle.postcard_described.specs.{end_same, flat_then, group_same, no_parts, of_parts};
ghost use Rattle.postcard_described.specs.{then_same};

use crate::rows::{SchemaParts, joined_schema};
use crate::schema::HasSchema;
use postcard_schema::Schema;
use postcard_shape::Part;
use postcard_wire::Result;
use std::alloc::Global;

impl<
    A: HasSchema,
    B: HasSchema,
    C: HasSchema,
    D: HasSchema,
    E: HasSchema,
    G: HasSchema,
    H: HasSchema,
    I: HasSchema,
    J: HasSchema,
    K: HasSchema,
    L: HasSchema,
    M: HasSchema,
    N: HasSchema,
> HasSchema for (A, B, C, D, E, G, H, I, J, K, L, M, N) {
    ghost described = { of_parts (flat_then ⟦<Part<A, Part<B, Part<C, Part<D, Part<E, Part<G, Part<H, Part<I, ()>>>>>>>> as SchemaParts>⟧.described
        (flat_then ⟦<Part<J, Part<K, Part<L, Part<M, Part<N, ()>>>>> as SchemaParts>⟧.described no_parts)) };

    fn schema_with(alloc: Global, names: &[&str]) -> Result<Schema> {
        joined_schema::<
            Part<A, Part<B, Part<C, Part<D, Part<E, Part<G, Part<H, Part<I, ()>>>>>>>>,
            Part<J, Part<K, Part<L, Part<M, Part<N, ()>>>>>,
        >(alloc, names)
    }

    ghost same = { group_same (then_same (group_same (then_same A.same (then_same B.same (then_same C.same (then_same D.same (then_same E.same (then_same G.same (then_same H.same (then_same I.same end_same)))))))))
        (then_same (group_same (then_same J.same (then_same K.same (then_same L.same (then_same M.same (then_same N.same end_same)))))) end_same)) };
}

impl<
    A: HasSchema,
    B: HasSchema,
    C: HasSchema,
    D: HasSchema,
    E: HasSchema,
    G: HasSchema,
    H: HasSchema,
    I: HasSchema,
    J: HasSchema,
    K: HasSchema,
    L: HasSchema,
    M: HasSchema,
    N: HasSchema,
    O: HasSchema,
> HasSchema for (A, B, C, D, E, G, H, I, J, K, L, M, N, O) {
    ghost described = { of_parts (flat_then ⟦<Part<A, Part<B, Part<C, Part<D, Part<E, Part<G, Part<H, Part<I, ()>>>>>>>> as SchemaParts>⟧.described
        (flat_then ⟦<Part<J, Part<K, Part<L, Part<M, Part<N, Part<O, ()>>>>>> as SchemaParts>⟧.described no_parts)) };

    fn schema_with(alloc: Global, names: &[&str]) -> Result<Schema> {
        joined_schema::<
            Part<A, Part<B, Part<C, Part<D, Part<E, Part<G, Part<H, Part<I, ()>>>>>>>>,
            Part<J, Part<K, Part<L, Part<M, Part<N, Part<O, ()>>>>>>,
        >(alloc, names)
    }

    ghost same = { group_same (then_same (group_same (then_same A.same (then_same B.same (then_same C.same (then_same D.same (then_same E.same (then_same G.same (then_same H.same (then_same I.same end_same)))))))))
        (then_same (group_same (then_same J.same (then_same K.same (then_same L.same (then_same M.same (then_same N.same (then_same O.same end_same))))))) end_same)) };
}

impl<
    A: HasSchema,
    B: HasSchema,
    C: HasSchema,
    D: HasSchema,
    E: HasSchema,
    G: HasSchema,
    H: HasSchema,
    I: HasSchema,
    J: HasSchema,
    K: HasSchema,
    L: HasSchema,
    M: HasSchema,
    N: HasSchema,
    O: HasSchema,
    P: HasSchema,
> HasSchema for (A, B, C, D, E, G, H, I, J, K, L, M, N, O, P) {
    ghost described = { of_parts (flat_then ⟦<Part<A, Part<B, Part<C, Part<D, Part<E, Part<G, Part<H, Part<I, ()>>>>>>>> as SchemaParts>⟧.described
        (flat_then ⟦<Part<J, Part<K, Part<L, Part<M, Part<N, Part<O, Part<P, ()>>>>>>> as SchemaParts>⟧.described no_parts)) };

    fn schema_with(alloc: Global, names: &[&str]) -> Result<Schema> {
        joined_schema::<
            Part<A, Part<B, Part<C, Part<D, Part<E, Part<G, Part<H, Part<I, ()>>>>>>>>,
            Part<J, Part<K, Part<L, Part<M, Part<N, Part<O, Part<P, ()>>>>>>>,
        >(alloc, names)
    }

    ghost same = { group_same (then_same (group_same (then_same A.same (then_same B.same (then_same C.same (then_same D.same (then_same E.same (then_same G.same (then_same H.same (then_same I.same end_same)))))))))
        (then_same (group_same (then_same J.same (then_same K.same (then_same L.same (then_same M.same (then_same N.same (then_same O.same (then_same P.same end_same)))))))) end_same)) };
}

impl<
    A: HasSchema,
    B: HasSchema,
    C: HasSchema,
    D: HasSchema,
    E: HasSchema,
    G: HasSchema,
    H: HasSchema,
    I: HasSchema,
    J: HasSchema,
    K: HasSchema,
    L: HasSchema,
    M: HasSchema,
    N: HasSchema,
    O: HasSchema,
    P: HasSchema,
    Q: HasSchema,
> HasSchema for (A, B, C, D, E, G, H, I, J, K, L, M, N, O, P, Q) {
    ghost described = { of_parts (flat_then ⟦<Part<A, Part<B, Part<C, Part<D, Part<E, Part<G, Part<H, Part<I, ()>>>>>>>> as SchemaParts>⟧.described
        (flat_then ⟦<Part<J, Part<K, Part<L, Part<M, Part<N, Part<O, Part<P, Part<Q, ()>>>>>>>> as SchemaParts>⟧.described no_parts)) };

    fn schema_with(alloc: Global, names: &[&str]) -> Result<Schema> {
        joined_schema::<
            Part<A, Part<B, Part<C, Part<D, Part<E, Part<G, Part<H, Part<I, ()>>>>>>>>,
            Part<J, Part<K, Part<L, Part<M, Part<N, Part<O, Part<P, Part<Q, ()>>>>>>>>,
        >(alloc, names)
    }

    ghost same = { group_same (then_same (group_same (then_same A.same (then_same B.same (then_same C.same (then_same D.same (then_same E.same (then_same G.same (then_same H.same (then_same I.same end_same)))))))))
        (then_same (group_same (then_same J.same (then_same K.same (then_same L.same (then_same M.same (then_same N.same (then_same O.same (then_same P.same (then_same Q.same end_same))))))))) end_same)) };
}
