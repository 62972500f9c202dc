//! Laws of greatest sizes. Each law is the contract of a function that does nothing.
//!
//! [`sizes`] and [`within_max_size`] hold for every type. Each other law has the sizes of a family
//! of types, and says that a size is reached if those of the type's parts are. A size is `None` if
//! that of a part is, or if the sum or the product does not fit 64 bits.

ghost use Rattle.std.specs.Prelude.{◌≤◌, length, Some, IfSome, [], ◌∷◌, ⊤};
ghost use Rattle.postcard_max.specs.{AreBounded, IsReached, IsSize, IsSum, IsWilling, canonical};
ghost use Rattle.postcard_max.specs.{greater_of, sum_of, times, varint_len};

use crate::max_size::MaxSize;
use arrayvec::{ArrayString, ArrayVec};
use std::borrow::Cow;
use std::cmp::Reverse;
use std::marker::PhantomData;
use std::net::{IpAddr, Ipv4Addr, Ipv6Addr, SocketAddr, SocketAddrV4, SocketAddrV6};
use std::num::{
    NonZeroI8, NonZeroI16, NonZeroI32, NonZeroI64, NonZeroI128, NonZeroIsize, NonZeroU8,
    NonZeroU16, NonZeroU32, NonZeroU64, NonZeroU128, NonZeroUsize, Saturating, Wrapping,
};
use std::ops::{Bound, Range, RangeFrom, RangeInclusive, RangeTo};
use std::rc::Rc;
use std::sync::Arc;
use std::time::Duration;

/// No canonical encoding of a tree that a type reads is longer than the type's greatest size. If
/// the type says that its size is reached, some canonical encoding has this size.
pub fn sizes<T: MaxSize>()
    ensures bounded { AreBounded T.limit.greatest T.shape.reads }
    ensures reached { T.limit.reached → IsReached T.limit.greatest T.shape.reads }
{}

/// If a type has a greatest size, the canonical encoding of each value is no longer. So a buffer of
/// that size has room for it. If `willing` holds of the type, the value doesn't refuse itself.
pub fn within_max_size<T: MaxSize>(value: &T)
    ensures willing { T.limit.willing → IsWilling T.shape value.now }
    ensures bounded { IfSome T.limit.greatest
        (λ m. length (canonical (T.shape.tree value.now)) ≤ m) }
{
    value.in_forms();
}

/// States the greatest sizes of `bool`, integers, `char`, floats, the unit and `PhantomData`.
pub fn numbers<A: MaxSize>()
    ensures of_bool { IsSize ⟦<bool as MaxSize>⟧.limit (Some 1) ⊤ }
    ensures of_u8 { IsSize ⟦<u8 as MaxSize>⟧.limit (Some 1) ⊤ }
    ensures of_i8 { IsSize ⟦<i8 as MaxSize>⟧.limit (Some 1) ⊤ }
    ensures of_u16 { IsSize ⟦<u16 as MaxSize>⟧.limit (Some 3) ⊤ }
    ensures of_i16 { IsSize ⟦<i16 as MaxSize>⟧.limit (Some 3) ⊤ }
    ensures of_u32 { IsSize ⟦<u32 as MaxSize>⟧.limit (Some 5) ⊤ }
    ensures of_i32 { IsSize ⟦<i32 as MaxSize>⟧.limit (Some 5) ⊤ }
    ensures of_u64 { IsSize ⟦<u64 as MaxSize>⟧.limit (Some 10) ⊤ }
    ensures of_i64 { IsSize ⟦<i64 as MaxSize>⟧.limit (Some 10) ⊤ }
    ensures of_usize { IsSize ⟦<usize as MaxSize>⟧.limit (Some 10) ⊤ }
    ensures of_isize { IsSize ⟦<isize as MaxSize>⟧.limit (Some 10) ⊤ }
    ensures of_u128 { IsSize ⟦<u128 as MaxSize>⟧.limit (Some 19) ⊤ }
    ensures of_i128 { IsSize ⟦<i128 as MaxSize>⟧.limit (Some 19) ⊤ }
    ensures of_char { IsSize ⟦<char as MaxSize>⟧.limit (Some 5) ⊤ }
    ensures of_f32 { IsSize ⟦<f32 as MaxSize>⟧.limit (Some 4) ⊤ }
    ensures of_f64 { IsSize ⟦<f64 as MaxSize>⟧.limit (Some 8) ⊤ }
    ensures unit { IsSize ⟦<() as MaxSize>⟧.limit (Some 0) ⊤ }
    ensures phantom { IsSize ⟦<PhantomData<A> as MaxSize>⟧.limit (Some 0) ⊤ }
{}

/// States the greatest sizes of the types of integers without zero.
pub fn nonzero()
    ensures nonzero_u8 { IsSize ⟦<NonZeroU8 as MaxSize>⟧.limit (Some 1) ⊤ }
    ensures nonzero_u16 { IsSize ⟦<NonZeroU16 as MaxSize>⟧.limit (Some 3) ⊤ }
    ensures nonzero_u32 { IsSize ⟦<NonZeroU32 as MaxSize>⟧.limit (Some 5) ⊤ }
    ensures nonzero_u64 { IsSize ⟦<NonZeroU64 as MaxSize>⟧.limit (Some 10) ⊤ }
    ensures nonzero_u128 { IsSize ⟦<NonZeroU128 as MaxSize>⟧.limit (Some 19) ⊤ }
    ensures nonzero_usize { IsSize ⟦<NonZeroUsize as MaxSize>⟧.limit (Some 10) ⊤ }
    ensures nonzero_i8 { IsSize ⟦<NonZeroI8 as MaxSize>⟧.limit (Some 1) ⊤ }
    ensures nonzero_i16 { IsSize ⟦<NonZeroI16 as MaxSize>⟧.limit (Some 3) ⊤ }
    ensures nonzero_i32 { IsSize ⟦<NonZeroI32 as MaxSize>⟧.limit (Some 5) ⊤ }
    ensures nonzero_i64 { IsSize ⟦<NonZeroI64 as MaxSize>⟧.limit (Some 10) ⊤ }
    ensures nonzero_i128 { IsSize ⟦<NonZeroI128 as MaxSize>⟧.limit (Some 19) ⊤ }
    ensures nonzero_isize { IsSize ⟦<NonZeroIsize as MaxSize>⟧.limit (Some 10) ⊤ }
{}

/// States the greatest sizes of `Option`, `Result` and `Bound`, which have an index before the value.
pub fn options<A: MaxSize, B: MaxSize>()
    ensures option { IsSize ⟦<Option<A> as MaxSize>⟧.limit (sum_of (Some 1) A.limit.greatest)
        A.limit.reached }
    ensures result { IsSize ⟦<Result<A, B> as MaxSize>⟧.limit
        (sum_of (Some 1) (greater_of A.limit.greatest B.limit.greatest))
        (A.limit.reached × B.limit.reached) }
    ensures bound { IsSize ⟦<Bound<A> as MaxSize>⟧.limit
        (sum_of (Some 1) A.limit.greatest) A.limit.reached }
{}

/// States the greatest sizes of tuples: the sums of those of the parts.
pub fn tuples<
    A: MaxSize,
    B: MaxSize,
    C: MaxSize,
    D: MaxSize,
    E: MaxSize,
    G: MaxSize,
    H: MaxSize,
    I: MaxSize,
    J: MaxSize,
    K: MaxSize,
    L: MaxSize,
    M: MaxSize,
>()
    ensures tuple_of_one { IsSum ⟦<(A,) as MaxSize>⟧.limit
        (A.limit.greatest ∷ [])
        A.limit.reached }
    ensures tuple_of_two { IsSum ⟦<(A, B) as MaxSize>⟧.limit
        (A.limit.greatest ∷ B.limit.greatest ∷ [])
        (A.limit.reached × B.limit.reached) }
    ensures tuple_of_three { IsSum ⟦<(A, B, C) as MaxSize>⟧.limit
        (A.limit.greatest ∷ B.limit.greatest ∷ C.limit.greatest ∷ [])
        (A.limit.reached × B.limit.reached × C.limit.reached) }
    ensures tuple_of_four { IsSum ⟦<(A, B, C, D) as MaxSize>⟧.limit
        (A.limit.greatest ∷ B.limit.greatest ∷ C.limit.greatest ∷ D.limit.greatest ∷ [])
        (A.limit.reached × B.limit.reached × C.limit.reached × D.limit.reached) }
    ensures tuple_of_five { IsSum ⟦<(A, B, C, D, E) as MaxSize>⟧.limit
        (A.limit.greatest ∷ B.limit.greatest ∷ C.limit.greatest ∷ D.limit.greatest ∷
        E.limit.greatest ∷ [])
        (A.limit.reached × B.limit.reached × C.limit.reached × D.limit.reached × E.limit.reached) }
    ensures tuple_of_six { IsSum ⟦<(A, B, C, D, E, G) as MaxSize>⟧.limit
        (A.limit.greatest ∷ B.limit.greatest ∷ C.limit.greatest ∷ D.limit.greatest ∷
        E.limit.greatest ∷ G.limit.greatest ∷ [])
        (A.limit.reached × B.limit.reached × C.limit.reached × D.limit.reached × E.limit.reached
        × G.limit.reached) }
    ensures tuple_of_seven { IsSum ⟦<(A, B, C, D, E, G, H) as MaxSize>⟧.limit
        (A.limit.greatest ∷ B.limit.greatest ∷ C.limit.greatest ∷ D.limit.greatest ∷
        E.limit.greatest ∷ G.limit.greatest ∷ H.limit.greatest ∷ [])
        (A.limit.reached × B.limit.reached × C.limit.reached × D.limit.reached × E.limit.reached
        × G.limit.reached × H.limit.reached) }
    ensures tuple_of_eight { IsSum ⟦<(A, B, C, D, E, G, H, I) as MaxSize>⟧.limit
        (A.limit.greatest ∷ B.limit.greatest ∷ C.limit.greatest ∷ D.limit.greatest ∷
        E.limit.greatest ∷ G.limit.greatest ∷ H.limit.greatest ∷ I.limit.greatest ∷ [])
        (A.limit.reached × B.limit.reached × C.limit.reached × D.limit.reached × E.limit.reached
        × G.limit.reached × H.limit.reached × I.limit.reached) }
    ensures tuple_of_nine { IsSum ⟦<(A, B, C, D, E, G, H, I, J) as MaxSize>⟧.limit
        (A.limit.greatest ∷ B.limit.greatest ∷ C.limit.greatest ∷ D.limit.greatest ∷
        E.limit.greatest ∷ G.limit.greatest ∷ H.limit.greatest ∷ I.limit.greatest ∷
        J.limit.greatest ∷ [])
        (A.limit.reached × B.limit.reached × C.limit.reached × D.limit.reached × E.limit.reached
        × G.limit.reached × H.limit.reached × I.limit.reached × J.limit.reached) }
    ensures tuple_of_ten { IsSum ⟦<(A, B, C, D, E, G, H, I, J, K) as MaxSize>⟧.limit
        (A.limit.greatest ∷ B.limit.greatest ∷ C.limit.greatest ∷ D.limit.greatest ∷
        E.limit.greatest ∷ G.limit.greatest ∷ H.limit.greatest ∷ I.limit.greatest ∷
        J.limit.greatest ∷ K.limit.greatest ∷ [])
        (A.limit.reached × B.limit.reached × C.limit.reached × D.limit.reached × E.limit.reached
        × G.limit.reached × H.limit.reached × I.limit.reached × J.limit.reached × K.limit.reached) }
    ensures tuple_of_eleven { IsSum ⟦<(A, B, C, D, E, G, H, I, J, K, L) as MaxSize>⟧.limit
        (A.limit.greatest ∷ B.limit.greatest ∷ C.limit.greatest ∷ D.limit.greatest ∷
        E.limit.greatest ∷ G.limit.greatest ∷ H.limit.greatest ∷ I.limit.greatest ∷
        J.limit.greatest ∷ K.limit.greatest ∷ L.limit.greatest ∷ [])
        (A.limit.reached × B.limit.reached × C.limit.reached × D.limit.reached × E.limit.reached
        × G.limit.reached × H.limit.reached × I.limit.reached × J.limit.reached × K.limit.reached
        × L.limit.reached) }
    ensures tuple_of_twelve { IsSum ⟦<(A, B, C, D, E, G, H, I, J, K, L, M) as MaxSize>⟧.limit
        (A.limit.greatest ∷ B.limit.greatest ∷ C.limit.greatest ∷ D.limit.greatest ∷
        E.limit.greatest ∷ G.limit.greatest ∷ H.limit.greatest ∷ I.limit.greatest ∷
        J.limit.greatest ∷ K.limit.greatest ∷ L.limit.greatest ∷ M.limit.greatest ∷ [])
        (A.limit.reached × B.limit.reached × C.limit.reached × D.limit.reached × E.limit.reached
        × G.limit.reached × H.limit.reached × I.limit.reached × J.limit.reached × K.limit.reached
        × L.limit.reached × M.limit.reached) }
{}

/// States the greatest sizes of ranges, and of `Duration`.
pub fn ranges<A: MaxSize>()
    ensures duration { IsSize ⟦<Duration as MaxSize>⟧.limit (Some 15) ⊤ }
    ensures range { IsSum ⟦<Range<A> as MaxSize>⟧.limit
        (A.limit.greatest ∷ A.limit.greatest ∷ []) A.limit.reached }
    ensures range_inclusive { IsSum ⟦<RangeInclusive<A> as MaxSize>⟧.limit
        (A.limit.greatest ∷ A.limit.greatest ∷ []) A.limit.reached }
    ensures range_from { IsSum ⟦<RangeFrom<A> as MaxSize>⟧.limit
        (A.limit.greatest ∷ []) A.limit.reached }
    ensures range_to { IsSum ⟦<RangeTo<A> as MaxSize>⟧.limit
        (A.limit.greatest ∷ []) A.limit.reached }
{}

/// States the greatest sizes of wrappers, boxes and references: those of what they hold.
pub fn wrappers<A: MaxSize>()
    ensures wrapping { IsSize ⟦<Wrapping<A> as MaxSize>⟧.limit A.limit.greatest A.limit.reached }
    ensures saturating { IsSize ⟦<Saturating<A> as MaxSize>⟧.limit A.limit.greatest A.limit.reached }
    ensures reverse { IsSize ⟦<Reverse<A> as MaxSize>⟧.limit A.limit.greatest A.limit.reached }
    ensures cow { IsSize ⟦<Cow<'static, A> as MaxSize>⟧.limit A.limit.greatest A.limit.reached }
    ensures boxed { IsSize ⟦<Box<A> as MaxSize>⟧.limit A.limit.greatest A.limit.reached }
    ensures shared { IsSize ⟦<Rc<A> as MaxSize>⟧.limit A.limit.greatest A.limit.reached }
    ensures shared_by_threads { IsSize ⟦<Arc<A> as MaxSize>⟧.limit A.limit.greatest
        A.limit.reached }
    ensures reference { IsSize ⟦<&'static A as MaxSize>⟧.limit A.limit.greatest A.limit.reached }
    ensures mutable { IsSize ⟦<&'static mut A as MaxSize>⟧.limit A.limit.greatest A.limit.reached }
{}

/// States the greatest sizes of addresses of the Internet.
pub fn addresses()
    ensures ipv4 { IsSize ⟦<Ipv4Addr as MaxSize>⟧.limit (Some 4) ⊤ }
    ensures ipv6 { IsSize ⟦<Ipv6Addr as MaxSize>⟧.limit (Some 16) ⊤ }
    ensures ip { IsSize ⟦<IpAddr as MaxSize>⟧.limit (Some 17) ⊤ }
    ensures socket_v4 { IsSize ⟦<SocketAddrV4 as MaxSize>⟧.limit (Some 7) ⊤ }
    ensures socket_v6 { IsSize ⟦<SocketAddrV6 as MaxSize>⟧.limit (Some 19) ⊤ }
    ensures socket { IsSize ⟦<SocketAddr as MaxSize>⟧.limit (Some 20) ⊤ }
{}

/// States the greatest sizes of arrays, and of vectors and strings with a capacity.
pub fn capacities<A: MaxSize, const N: usize>()
    ensures array { IsSize ⟦<[A; N] as MaxSize>⟧.limit (times N A.limit.greatest) A.limit.reached }
    ensures vector { IsSize ⟦<ArrayVec<A, N> as MaxSize>⟧.limit
        (sum_of (times N A.limit.greatest) (Some (varint_len N))) A.limit.reached }
    ensures short_text { IsSize ⟦<ArrayString<N> as MaxSize>⟧.limit
        (sum_of (Some N) (Some (varint_len N))) ⊤ }
{}
