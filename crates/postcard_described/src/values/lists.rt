//! The schemas of lists, sets and arrays. An `ArrayVec` refuses lists longer than its capacity.

ghost use Rattle.postcard_described.specs.{array_same, few_same, of_array, of_few, of_seq, seq_same};

use crate::make::{array_schema, seq_schema};
use crate::schema::HasSchema;
use arrayvec::ArrayVec;
use postcard_schema::Schema;
use postcard_wire::Result;
use std::alloc::Global;
use std::borrow::CowSlice;
use std::boxed::BoxedSlice;
use std::collections::{BTreeSet, BinaryHeap, HashSet, LinkedList, VecDeque};
use std::hash::{BuildHasher, Hash};
use std::rc::RcSlice;
use std::sync::ArcSlice;

impl<T: HasSchema> HasSchema for &[T] {
    ghost described = { of_seq T.described };

    fn schema_with(alloc: Global, _names: &[&str]) -> Result<Schema> {
        seq_schema(alloc, T::schema(alloc)?)
    }

    ghost same = { seq_same T.same };
}

impl<T: HasSchema> HasSchema for Vec<T> {
    ghost described = { of_seq T.described };

    fn schema_with(alloc: Global, _names: &[&str]) -> Result<Schema> {
        seq_schema(alloc, T::schema(alloc)?)
    }

    ghost same = { seq_same T.same };
}

impl<T: HasSchema> HasSchema for VecDeque<T> {
    ghost described = { of_seq T.described };

    fn schema_with(alloc: Global, _names: &[&str]) -> Result<Schema> {
        seq_schema(alloc, T::schema(alloc)?)
    }

    ghost same = { seq_same T.same };
}

impl<T: HasSchema> HasSchema for LinkedList<T> {
    ghost described = { of_seq T.described };

    fn schema_with(alloc: Global, _names: &[&str]) -> Result<Schema> {
        seq_schema(alloc, T::schema(alloc)?)
    }

    ghost same = { seq_same T.same };
}

impl<T: HasSchema> HasSchema for BoxedSlice<T> {
    ghost described = { of_seq T.described };

    fn schema_with(alloc: Global, _names: &[&str]) -> Result<Schema> {
        seq_schema(alloc, T::schema(alloc)?)
    }

    ghost same = { seq_same T.same };
}

impl<T: HasSchema> HasSchema for RcSlice<T> {
    ghost described = { of_seq T.described };

    fn schema_with(alloc: Global, _names: &[&str]) -> Result<Schema> {
        seq_schema(alloc, T::schema(alloc)?)
    }

    ghost same = { seq_same T.same };
}

impl<T: HasSchema> HasSchema for ArcSlice<T> {
    ghost described = { of_seq T.described };

    fn schema_with(alloc: Global, _names: &[&str]) -> Result<Schema> {
        seq_schema(alloc, T::schema(alloc)?)
    }

    ghost same = { seq_same T.same };
}

impl<T: HasSchema> HasSchema for CowSlice<'_, T> {
    ghost described = { of_seq T.described };

    fn schema_with(alloc: Global, _names: &[&str]) -> Result<Schema> {
        seq_schema(alloc, T::schema(alloc)?)
    }

    ghost same = { seq_same T.same };
}

impl<T: HasSchema + Ord> HasSchema for BinaryHeap<T> {
    ghost described = { of_seq T.described };

    fn schema_with(alloc: Global, _names: &[&str]) -> Result<Schema> {
        seq_schema(alloc, T::schema(alloc)?)
    }

    ghost same = { seq_same T.same };
}

impl<K: HasSchema + Ord> HasSchema for BTreeSet<K> {
    ghost described = { of_seq K.described };

    fn schema_with(alloc: Global, _names: &[&str]) -> Result<Schema> {
        seq_schema(alloc, K::schema(alloc)?)
    }

    ghost same = { seq_same K.same };
}

impl<K: HasSchema + Eq + Hash, S: BuildHasher> HasSchema for HashSet<K, S> {
    ghost described = { of_seq K.described };

    fn schema_with(alloc: Global, _names: &[&str]) -> Result<Schema> {
        seq_schema(alloc, K::schema(alloc)?)
    }

    ghost same = { seq_same K.same };
}

impl<T: HasSchema, const CAP: usize> HasSchema for ArrayVec<T, CAP> {
    ghost described = { of_few CAP T.described };

    fn schema_with(alloc: Global, _names: &[&str]) -> Result<Schema> {
        seq_schema(alloc, T::schema(alloc)?)
    }

    ghost same = { few_same CAP T.same };
}

impl<T: HasSchema, const N: usize> HasSchema for [T; N] {
    ghost described = { of_array N T.described };

    fn schema_with(alloc: Global, _names: &[&str]) -> Result<Schema> {
        array_schema(alloc, T::schema(alloc)?, N)
    }

    ghost same = { array_same N T.same };
}
