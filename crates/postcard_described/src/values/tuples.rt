//! The schemas of tuples: that of the parts in a row.

ghost use Rattle.postcard_described.specs.{end_same, group_same, no_parts, of_parts, part_then};
ghost use Rattle.postcard_described.specs.{then_same};

use crate::rows::parts_schema;
use crate::schema::HasSchema;
use postcard_schema::Schema;
use postcard_shape::Part;
use postcard_wire::Result;
use std::alloc::Global;
use std::marker::PhantomData;

impl HasSchema for () {
    ghost described = { of_parts no_parts };

    fn schema_with(alloc: Global, names: &[&str]) -> Result<Schema> {
        parts_schema::<()>(alloc, names)
    }

    ghost same = { group_same end_same };
}

impl<T> HasSchema for PhantomData<T> {
    ghost described = { of_parts no_parts };

    fn schema_with(alloc: Global, names: &[&str]) -> Result<Schema> {
        parts_schema::<()>(alloc, names)
    }

    ghost same = { group_same end_same };
}

impl<A: HasSchema> HasSchema for (A,) {
    ghost described = { ⟦<Part<A, ()> as HasSchema>⟧.described };

    fn schema_with(alloc: Global, names: &[&str]) -> Result<Schema> {
        <Part<A, ()>>::schema_with(alloc, names)
    }

    ghost same = { group_same (then_same A.same end_same) };
}

impl<A: HasSchema, B: HasSchema> HasSchema for (A, B) {
    ghost described = { ⟦<Part<A, Part<B, ()>> as HasSchema>⟧.described };

    fn schema_with(alloc: Global, names: &[&str]) -> Result<Schema> {
        <Part<A, Part<B, ()>>>::schema_with(alloc, names)
    }

    ghost same = { group_same (then_same A.same (then_same B.same end_same)) };
}

impl<A: HasSchema, B: HasSchema, C: HasSchema> HasSchema for (A, B, C) {
    ghost described = { ⟦<Part<A, Part<B, Part<C, ()>>> as HasSchema>⟧.described };

    fn schema_with(alloc: Global, names: &[&str]) -> Result<Schema> {
        <Part<A, Part<B, Part<C, ()>>>>::schema_with(alloc, names)
    }

    ghost same = { group_same (then_same A.same (then_same B.same (then_same C.same end_same))) };
}

impl<A: HasSchema, B: HasSchema, C: HasSchema, D: HasSchema> HasSchema for (A, B, C, D) {
    ghost described = { ⟦<Part<A, Part<B, Part<C, Part<D, ()>>>> as HasSchema>⟧.described };

    fn schema_with(alloc: Global, names: &[&str]) -> Result<Schema> {
        <Part<A, Part<B, Part<C, Part<D, ()>>>>>::schema_with(alloc, names)
    }

    ghost same = { group_same (then_same A.same (then_same B.same (then_same C.same (then_same D.same end_same)))) };
}

impl<A: HasSchema, B: HasSchema, C: HasSchema, D: HasSchema, E: HasSchema> HasSchema
    for (A, B, C, D, E) {
    ghost described = { ⟦<Part<A, Part<B, Part<C, Part<D, Part<E, ()>>>>> as HasSchema>⟧.described };

    fn schema_with(alloc: Global, names: &[&str]) -> Result<Schema> {
        <Part<A, Part<B, Part<C, Part<D, Part<E, ()>>>>>>::schema_with(alloc, names)
    }

    ghost same = { group_same (then_same A.same (then_same B.same (then_same C.same (then_same D.same (then_same E.same end_same))))) };
}

impl<A: HasSchema, B: HasSchema, C: HasSchema, D: HasSchema, E: HasSchema, G: HasSchema> HasSchema
    for (A, B, C, D, E, G) {
    ghost described = { ⟦<Part<A, Part<B, Part<C, Part<D, Part<E, Part<G, ()>>>>>> as HasSchema>⟧.described };

    fn schema_with(alloc: Global, names: &[&str]) -> Result<Schema> {
        <Part<A, Part<B, Part<C, Part<D, Part<E, Part<G, ()>>>>>>>::schema_with(alloc, names)
    }

    ghost same = { group_same (then_same A.same (then_same B.same (then_same C.same (then_same D.same (then_same E.same (then_same G.same end_same)))))) };
}

impl<
    A: HasSchema,
    B: HasSchema,
    C: HasSchema,
    D: HasSchema,
    E: HasSchema,
    G: HasSchema,
    H: HasSchema,
> HasSchema for (A, B, C, D, E, G, H) {
    ghost described = { ⟦<Part<A, Part<B, Part<C, Part<D, Part<E, Part<G, Part<H, ()>>>>>>> as HasSchema>⟧.described };

    fn schema_with(alloc: Global, names: &[&str]) -> Result<Schema> {
        <Part<A, Part<B, Part<C, Part<D, Part<E, Part<G, Part<H, ()>>>>>>>>::schema_with(
            alloc, names,
        )
    }

    ghost same = { group_same (then_same A.same (then_same B.same (then_same C.same (then_same D.same (then_same E.same (then_same G.same (then_same H.same end_same))))))) };
}

impl<
    A: HasSchema,
    B: HasSchema,
    C: HasSchema,
    D: HasSchema,
    E: HasSchema,
    G: HasSchema,
    H: HasSchema,
    I: HasSchema,
> HasSchema for (A, B, C, D, E, G, H, I) {
    ghost described = { ⟦<Part<A, Part<B, Part<C, Part<D, Part<E, Part<G, Part<H, Part<I, ()>>>>>>>> as HasSchema>⟧.described };

    fn schema_with(alloc: Global, names: &[&str]) -> Result<Schema> {
        <Part<A, Part<B, Part<C, Part<D, Part<E, Part<G, Part<H, Part<I, ()>>>>>>>>>::schema_with(
            alloc, names,
        )
    }

    ghost same = { group_same (then_same A.same (then_same B.same (then_same C.same (then_same D.same (then_same E.same (then_same G.same (then_same H.same (then_same I.same end_same)))))))) };
}

impl<
    A: HasSchema,
    B: HasSchema,
    C: HasSchema,
    D: HasSchema,
    E: HasSchema,
    G: HasSchema,
    H: HasSchema,
    I: HasSchema,
    J: HasSchema,
> HasSchema for (A, B, C, D, E, G, H, I, J) {
    ghost described = { ⟦<Part<A, Part<B, Part<C, Part<D, Part<E, Part<G, Part<H, Part<I, Part<J, ()>>>>>>>>> as HasSchema>⟧.described };

    fn schema_with(alloc: Global, names: &[&str]) -> Result<Schema> {
        <Part<
            A,
            Part<B, Part<C, Part<D, Part<E, Part<G, Part<H, Part<I, Part<J, ()>>>>>>>>,
        >>::schema_with(alloc, names)
    }

    ghost same = { group_same (then_same A.same (then_same B.same (then_same C.same (then_same D.same (then_same E.same (then_same G.same (then_same H.same (then_same I.same (then_same J.same end_same))))))))) };
}

impl<
    A: HasSchema,
    B: HasSchema,
    C: HasSchema,
    D: HasSchema,
    E: HasSchema,
    G: HasSchema,
    H: HasSchema,
    I: HasSchema,
    J: HasSchema,
    K: HasSchema,
> HasSchema for (A, B, C, D, E, G, H, I, J, K) {
    ghost described = { ⟦<Part<A, Part<B, Part<C, Part<D, Part<E, Part<G, Part<H, Part<I, Part<J, Part<K, ()>>>>>>>>>> as HasSchema>⟧.described };

    fn schema_with(alloc: Global, names: &[&str]) -> Result<Schema> {
        <Part<
            A,
            Part<B, Part<C, Part<D, Part<E, Part<G, Part<H, Part<I, Part<J, Part<K, ()>>>>>>>>>,
        >>::schema_with(alloc, names)
    }

    ghost same = { group_same (then_same A.same (then_same B.same (then_same C.same (then_same D.same (then_same E.same (then_same G.same (then_same H.same (then_same I.same (then_same J.same (then_same K.same end_same)))))))))) };
}

impl<
    A: HasSchema,
    B: HasSchema,
    C: HasSchema,
    D: HasSchema,
    E: HasSchema,
    G: HasSchema,
    H: HasSchema,
    I: HasSchema,
    J: HasSchema,
    K: HasSchema,
    L: HasSchema,
> HasSchema for (A, B, C, D, E, G, H, I, J, K, L) {
    ghost described = { ⟦<Part<A, Part<B, Part<C, Part<D, Part<E, Part<G, Part<H, Part<I, Part<J, Part<K, Part<L, ()>>>>>>>>>>> as HasSchema>⟧.described };

    fn schema_with(alloc: Global, names: &[&str]) -> Result<Schema> {
        <Part<
            A,
            Part<
                B,
                Part<C, Part<D, Part<E, Part<G, Part<H, Part<I, Part<J, Part<K, Part<L, ()>>>>>>>>>,
            >,
        >>::schema_with(alloc, names)
    }

    ghost same = { group_same (then_same A.same (then_same B.same (then_same C.same (then_same D.same (then_same E.same (then_same G.same (then_same H.same (then_same I.same (then_same J.same (then_same K.same (then_same L.same end_same))))))))))) };
}

impl<
    A: HasSchema,
    B: HasSchema,
    C: HasSchema,
    D: HasSchema,
    E: HasSchema,
    G: HasSchema,
    H: HasSchema,
    I: HasSchema,
    J: HasSchema,
    K: HasSchema,
    L: HasSchema,
    M: HasSchema,
> HasSchema for (A, B, C, D, E, G, H, I, J, K, L, M) {
    ghost described = { ⟦<Part<A, Part<B, Part<C, Part<D, Part<E, Part<G, Part<H, Part<I, Part<J, Part<K, Part<L, Part<M, ()>>>>>>>>>>>> as HasSchema>⟧.described };

    fn schema_with(alloc: Global, names: &[&str]) -> Result<Schema> {
        <Part<
            A,
            Part<
                B,
                Part<
                    C,
                    Part<
                        D,
                        Part<E, Part<G, Part<H, Part<I, Part<J, Part<K, Part<L, Part<M, ()>>>>>>>>,
                    >,
                >,
            >,
        >>::schema_with(alloc, names)
    }

    ghost same = { group_same (then_same A.same (then_same B.same (then_same C.same (then_same D.same (then_same E.same (then_same G.same (then_same H.same (then_same I.same (then_same J.same (then_same K.same (then_same L.same (then_same M.same end_same)))))))))))) };
}
