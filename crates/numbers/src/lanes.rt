// The keys of eight elements, and vectors of their patterns and ranks.
ghost use Rattle.std.specs.Prelude.{◌≡◌, ℕ, ◌+◌, ◌-◌, ◌*◌, ◌/◌, ◌%◌, ◌^◌, ◌<◌, ◌≤◌, true, false, length, pos, ◌+ℤ◌, bit_xor, slice_index};
ghost use Rattle.std.specs.Simd.Lanes.{chunk, digits_l, number_l};
ghost use Rattle.elements.specs.Kinds.{width_of};
ghost use Rattle.elements.specs.Keys.{low_bytes};
ghost use Rattle.numbers.specs.Eights.{at, element, key_of_lane, eight_of, offset, LieIn};
ghost use Rattle.numbers.specs.Eight.{keys, patterns};

use crate::eight::{Eight, Spread};
use elements::kind::ElementKind;
use elements::ptype::Class;
use std::simd::prelude::*;

// The patterns of eight elements of one byte, side by side.
fn ones(bytes: &[u8], start: usize) -> u32x8
    requires { start + 8 ≤ length bytes.now }
    ensures { result ≡ chunk start 8 bytes.now }
{
    u8x8::from_slice(&bytes[start..]).cast::<u32>()
}

// The same of two bytes.
fn twos(bytes: &[u8], start: usize) -> u32x8
    requires { start + 16 ≤ length bytes.now }
    ensures { result ≡ digits_l 65536 8 (number_l 256 (chunk start 16 bytes.now)) }
{
    u16x8::from_le_bytes(u8x16::from_slice(&bytes[start..])).cast::<u32>()
}

// The same of four bytes.
fn fours(bytes: &[u8], start: usize) -> u32x8
    requires { start + 32 ≤ length bytes.now }
    ensures { result ≡ digits_l 4294967296 8 (number_l 256 (chunk start 32 bytes.now)) }
{
    u32x8::from_le_bytes(u8x32::from_slice(&bytes[start..]))
}

// The patterns of eight elements of less than eight bytes, side by side.
fn beside<K: ElementKind>(bytes: &[u8], start: usize) -> u32x8
    requires narrow { width_of K.PTYPE < 8 }
    requires within { LieIn (width_of K.PTYPE) bytes.now start false }
    ensures { result ≡ eight_of (λ b. low_bytes (width_of K.PTYPE) (element (width_of K.PTYPE) bytes.now start false b)) }
{
    match K::WIDTH {
        1 => ones(bytes, start),
        2 => twos(bytes, start),
        _ => fours(bytes, start),
    }
}

// The pattern of one such element, eight times.
fn repeated<K: ElementKind>(bytes: &[u8], start: usize) -> u32x8
    requires narrow { width_of K.PTYPE < 8 }
    requires within { LieIn (width_of K.PTYPE) bytes.now start true }
    ensures { result ≡ eight_of (λ b. low_bytes (width_of K.PTYPE) (element (width_of K.PTYPE) bytes.now start true b)) }
{
    u32x8::splat(K::read(bytes, start) as u32)
}

// All bits below `low` flipped where that one is set.
fn flipped(patterns: u32x8, low: u32) -> u32x8
    requires some { 0 < low }
    requires fits { low < 32 }
    ensures { (f : ℕ → ℕ) → patterns ≡ eight_of f → result ≡ eight_of (λ b. bit_xor (f b) ((0 + (2 ^ 32 - f b / 2 ^ low)) % 2 ^ 32 / 2 ^ (32 - low))) }
{
    let set = patterns >> u32x8::splat(low);
    patterns ^ ((u32x8::splat(0) - set) >> u32x8::splat(32 - low))
}

// The bit `low` flipped.
fn turned(patterns: u32x8, low: u32) -> u32x8
    requires { low < 32 }
    ensures { (f : ℕ → ℕ) → patterns ≡ eight_of f → result ≡ eight_of (λ b. bit_xor (f b) (2 ^ low)) }
{
    patterns ^ u32x8::splat(1 << low)
}

impl<'a, K: ElementKind, S: Spread> Eight<'a, K, S> {
    // Where element b stands.
    fn place(&self, b: usize) -> usize
        requires { b < 8 }
        ensures value { result ≡ at (width_of K.PTYPE) self.now.start S.FIXED b }
        ensures within { result + width_of K.PTYPE ≤ length self.now.bytes.now }
    {
        if S::FIXED {
            self.start
        } else {
            self.start + K::WIDTH * b
        }
    }

    // The pattern of element b.
    pub(crate) fn pattern(&self, b: usize) -> u64
        requires { b < 8 }
        ensures { result ≡ patterns self.now b }
    {
        K::read(self.bytes, self.place(b))
    }

    // The key of element b.
    pub(crate) fn key(&self, b: usize) -> i128
        requires { b < 8 }
        ensures { result ≡ keys self.now b }
    {
        K::key_of(self.pattern(b))
    }

    // The keys.
    pub(crate) fn keys(&self) -> [i128; 8]
        ensures { (b : ℕ) → b < 8 → key_of_lane result b ≡ keys self.now b }
    {
        let mut keys = [0; 8];
        for (b, key) in keys.iter_mut().enumerate() {
            *key = self.key(b);
        }
        keys
    }

    // The patterns of elements of less than eight bytes.
    pub(crate) fn patterns(&self) -> u32x8
        requires { width_of K.PTYPE < 8 }
        ensures { result ≡ eight_of (λ b. low_bytes (width_of K.PTYPE) (patterns self.now b)) }
    {
        if S::FIXED {
            repeated::<K>(self.bytes, self.start)
        } else {
            beside::<K>(self.bytes, self.start)
        }
    }

    // Unsigned numbers in the order of the keys: the keys themselves, or the keys and the sign bit.
    pub(crate) fn ranks(&self) -> u32x8
        requires { width_of K.PTYPE < 8 }
        ensures long { length result ≡ 8 }
        ensures ranked { (b : ℕ) → b < 8 → pos (slice_index result b) ≡ keys self.now b +ℤ pos (offset K.PTYPE) }
    {
        let patterns = self.patterns();
        let low = 8 * K::WIDTH as u32 - 1;
        match K::PTYPE.class() {
            Class::Unsigned => patterns,
            Class::Signed => turned(patterns, low),
            Class::Float => turned(flipped(patterns, low), low),
        }
    }
}
