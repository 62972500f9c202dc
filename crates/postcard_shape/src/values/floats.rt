//! The shapes of floating-point numbers, and their encodings many at a time.
//!
//! The functions `bytes_of_` return the encodings one after the other, and `bits_of_` the bits of
//! each number, of a NaN always 7FC00000 or 7FF8000000000000.

ghost use Rattle.std.specs.Prelude.{◌≡◌, ◌<◌, ◌≤◌, [], ◌∷◌, length, map, T};
ghost use Rattle.postcard_shape.specs.{AllFit, AreFirst, IsBlockOf, IsRowOf, binary32, binary64};
ghost use Rattle.postcard_shape.specs.{canonical_all, fits, float, float_tree, to_bits, trees};

use crate::blocks::{self, OfBytes};
use crate::first::FirstBytes;
use crate::shape::Shaped;
use postcard_wire::Result;
use postcard_wire::laws::in_range;
use std::num::{f32_from_bits_with_nan, f64_from_bits_with_nan};
use std::simd::prelude::*;

impl Shaped for f32 {
    ghost shape = { float binary32 };

    #[inline(always)]
    fn first_bytes(items: &[f32]) -> FirstBytes<'_>
        ensures gives { AreFirst (float binary32) items.now result }
        ensures is_row { 16 ≤ length items.now → IsRowOf 16 result }
        ensures is_block { 4 ≤ length items.now → length items.now < 16 → IsBlockOf 4 result }
    {
        if let Some(row) = items.first_chunk::<16>() {
            let [a, b, c, d, e, f, g, h, i, j, k, l, m, n, o, p] = *row;
            let bytes = bytes_of_sixteen(a, b, c, d, e, f, g, h, i, j, k, l, m, n, o, p);
            return FirstBytes::Row(bytes, 16);
        }
        match items.first_chunk::<4>() {
            Some(block) => {
                let [a, b, c, d] = *block;
                FirstBytes::Block(bytes_of_four(a, b, c, d), 4)
            }
            None => FirstBytes::OneByOne,
        }
    }

    #[inline(always)]
    fn append_at_hand(items: &mut Vec<f32>, bytes: &[u8], most: usize) -> Result<Option<usize>> {
        blocks::append(items, bytes, most)
    }
}

impl Shaped for f64 {
    ghost shape = { float binary64 };

    #[inline(always)]
    fn first_bytes(items: &[f64]) -> FirstBytes<'_>
        ensures gives { AreFirst (float binary64) items.now result }
        ensures is_row { 8 ≤ length items.now → IsRowOf 8 result }
        ensures is_block { 2 ≤ length items.now → length items.now < 8 → IsBlockOf 2 result }
    {
        if let Some(row) = items.first_chunk::<8>() {
            let [a, b, c, d, e, f, g, h] = *row;
            return FirstBytes::Row(bytes_of_eight(a, b, c, d, e, f, g, h), 8);
        }
        match items.first_chunk::<2>() {
            Some(block) => {
                let [a, b] = *block;
                FirstBytes::Block(bytes_of_two(a, b), 2)
            }
            None => FirstBytes::OneByOne,
        }
    }

    #[inline(always)]
    fn append_at_hand(items: &mut Vec<f64>, bytes: &[u8], most: usize) -> Result<Option<usize>> {
        blocks::append(items, bytes, most)
    }
}

impl OfBytes for f32 {
    ghost size = { 4 };

    ghost form = { float binary32 };

    #[inline(always)]
    fn size() -> usize {
        4
    }

    #[inline(always)]
    fn from_front(bytes: &[u8]) -> f32 {
        let front = in_range(&bytes[..4]);
        let mut array = [0; 4];
        array.copy_from_slice(front);
        f32_from_bits_with_nan(u32::from_le_bytes(array))
    }
}

impl OfBytes for f64 {
    ghost size = { 8 };

    ghost form = { float binary64 };

    #[inline(always)]
    fn size() -> usize {
        8
    }

    #[inline(always)]
    fn from_front(bytes: &[u8]) -> f64 {
        let front = in_range(&bytes[..8]);
        let mut array = [0; 8];
        array.copy_from_slice(front);
        f64_from_bits_with_nan(u64::from_le_bytes(array))
    }
}

#[inline(always)]
fn bytes_of_sixteen(
    a: f32,
    b: f32,
    c: f32,
    d: f32,
    e: f32,
    f: f32,
    g: f32,
    h: f32,
    i: f32,
    j: f32,
    k: f32,
    l: f32,
    m: f32,
    n: f32,
    o: f32,
    p: f32,
) -> [u8; 64]
    ensures gives { result ≡ canonical_all (trees (map (float_tree binary32)
        (a ∷ b ∷ c ∷ d ∷ e ∷ f ∷ g ∷ h ∷ i ∷ j ∷ k ∷ l ∷ m ∷ n ∷ o ∷ p ∷ []))) }
    ensures fits { AllFit (λ x. T (fits binary32 x))
        (a ∷ b ∷ c ∷ d ∷ e ∷ f ∷ g ∷ h ∷ i ∷ j ∷ k ∷ l ∷ m ∷ n ∷ o ∷ p ∷ []) }
{
    bits_of_sixteen(a, b, c, d, e, f, g, h, i, j, k, l, m, n, o, p)
        .to_le_bytes()
        .to_array()
}

#[inline(always)]
fn bits_of_sixteen(
    a: f32,
    b: f32,
    c: f32,
    d: f32,
    e: f32,
    f: f32,
    g: f32,
    h: f32,
    i: f32,
    j: f32,
    k: f32,
    l: f32,
    m: f32,
    n: f32,
    o: f32,
    p: f32,
) -> u32x16
    ensures bits { result ≡ map (to_bits binary32)
        (a ∷ b ∷ c ∷ d ∷ e ∷ f ∷ g ∷ h ∷ i ∷ j ∷ k ∷ l ∷ m ∷ n ∷ o ∷ p ∷ []) }
    ensures fits { AllFit (λ x. T (fits binary32 x))
        (a ∷ b ∷ c ∷ d ∷ e ∷ f ∷ g ∷ h ∷ i ∷ j ∷ k ∷ l ∷ m ∷ n ∷ o ∷ p ∷ []) }
{
    let lanes = f32x16::from_array([a, b, c, d, e, f, g, h, i, j, k, l, m, n, o, p]);
    let nan = lanes.simd_ne(lanes);
    let bits = nan.select(f32x16::splat(0.0), lanes).to_bits();
    bits | nan.select(u32x16::splat(0x7FC0_0000), u32x16::splat(0))
}

#[inline(always)]
fn bytes_of_eight(a: f64, b: f64, c: f64, d: f64, e: f64, f: f64, g: f64, h: f64) -> [u8; 64]
    ensures gives { result ≡ canonical_all (trees (map (float_tree binary64)
        (a ∷ b ∷ c ∷ d ∷ e ∷ f ∷ g ∷ h ∷ []))) }
    ensures fits { AllFit (λ x. T (fits binary64 x))
        (a ∷ b ∷ c ∷ d ∷ e ∷ f ∷ g ∷ h ∷ []) }
{
    bits_of_eight(a, b, c, d, e, f, g, h)
        .to_le_bytes()
        .to_array()
}

#[inline(always)]
fn bits_of_eight(a: f64, b: f64, c: f64, d: f64, e: f64, f: f64, g: f64, h: f64) -> u64x8
    ensures bits { result ≡ map (to_bits binary64)
        (a ∷ b ∷ c ∷ d ∷ e ∷ f ∷ g ∷ h ∷ []) }
    ensures fits { AllFit (λ x. T (fits binary64 x))
        (a ∷ b ∷ c ∷ d ∷ e ∷ f ∷ g ∷ h ∷ []) }
{
    let lanes = f64x8::from_array([a, b, c, d, e, f, g, h]);
    let nan = lanes.simd_ne(lanes);
    let bits = nan.select(f64x8::splat(0.0), lanes).to_bits();
    bits | nan.select(u64x8::splat(0x7FF8_0000_0000_0000), u64x8::splat(0))
}

fn bytes_of_four(a: f32, b: f32, c: f32, d: f32) -> [u8; 16]
    ensures gives { result ≡ canonical_all (trees
        (map (float_tree binary32) (a ∷ b ∷ c ∷ d ∷ []))) }
    ensures fits { AllFit (λ x. T (fits binary32 x)) (a ∷ b ∷ c ∷ d ∷ []) }
{
    bits_of_four(a, b, c, d).to_le_bytes().to_array()
}

fn bits_of_four(a: f32, b: f32, c: f32, d: f32) -> u32x4
    ensures bits { result ≡ map (to_bits binary32) (a ∷ b ∷ c ∷ d ∷ []) }
    ensures fits { AllFit (λ x. T (fits binary32 x)) (a ∷ b ∷ c ∷ d ∷ []) }
{
    let lanes = f32x4::from_array([a, b, c, d]);
    let nan = lanes.simd_ne(lanes);
    let bits = nan.select(f32x4::splat(0.0), lanes).to_bits();
    bits | nan.select(u32x4::splat(0x7FC0_0000), u32x4::splat(0))
}

fn bytes_of_two(a: f64, b: f64) -> [u8; 16]
    ensures gives { result ≡ canonical_all (trees (map (float_tree binary64) (a ∷ b ∷ []))) }
    ensures fits { AllFit (λ x. T (fits binary64 x)) (a ∷ b ∷ []) }
{
    bits_of_two(a, b).to_le_bytes().to_array()
}

fn bits_of_two(a: f64, b: f64) -> u64x2
    ensures bits { result ≡ map (to_bits binary64) (a ∷ b ∷ []) }
    ensures fits { AllFit (λ x. T (fits binary64 x)) (a ∷ b ∷ []) }
{
    let lanes = f64x2::from_array([a, b]);
    let nan = lanes.simd_ne(lanes);
    let bits = nan.select(f64x2::splat(0.0), lanes).to_bits();
    bits | nan.select(u64x2::splat(0x7FF8_0000_0000_0000), u64x2::splat(0))
}
