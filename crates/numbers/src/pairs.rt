// Eight rows against eight others, from their elements and from bytes that tell which are valid.
ghost use Rattle.std.specs.Prelude.{◌≡◌, ℕ, ◌-◌, ◌<◌, bit_and, bit_or, bit_xor};
ghost use Rattle.std.specs.Ordering.{int_cmp, is_eq, is_lt};
ghost use Rattle.elements.specs.Kinds.{width_of};
ghost use Rattle.rows.specs.Bits.{bits};
ghost use Rattle.rows.specs.Row.{order};
ghost use Rattle.rows.specs.Operators.{holds};
ghost use Rattle.numbers.specs.Eights.{eighth};
ghost use Rattle.numbers.specs.Eight.{keys};

use crate::eight::{Beside, Eight, Spread};
use elements::kind::ElementKind;
use rows::operator::CompareOperator;
use rows::packing::pack;
use std::simd::prelude::*;

// The pairs whose left key is below: bit b is that of pair b. Elements of one kind and of less than eight bytes are compared at once.
#[inline(always)]
fn lower<K: ElementKind, L: ElementKind, S: Spread, T: Spread>(
    left: &Eight<K, S>,
    right: &Eight<L, T>,
) -> u8
    ensures { result ≡ bits (λ b. is_lt (int_cmp (keys left.now b) (keys right.now b))) 0 8 }
{
    if K::PTYPE == L::PTYPE && K::WIDTH < 8 {
        return (left.ranks().simd_lt(right.ranks()).to_bitmask() % 256) as u8;
    }
    let (left, right) = (left.keys(), right.keys());
    pack(|b| left[b] < right[b], 8)
}

// Whether elements b of one kind of eight bytes are one: whether their patterns are.
fn one_element<K: ElementKind, L: ElementKind, S: Spread, T: Spread>(
    left: &Eight<K, S>,
    right: &Eight<L, T>,
    b: usize,
) -> bool
    requires kind { K.PTYPE ≡ L.PTYPE }
    requires wide { width_of K.PTYPE ≡ 8 }
    requires eight { b < 8 }
    ensures { result ≡ is_eq (int_cmp (keys left.now b) (keys right.now b)) }
{
    left.pattern(b) == right.pattern(b)
}

// The pairs whose keys are one. Of one kind, those are the pairs whose patterns are.
#[inline(always)]
fn alike<K: ElementKind, L: ElementKind, S: Spread, T: Spread>(
    left: &Eight<K, S>,
    right: &Eight<L, T>,
) -> u8
    ensures { result ≡ bits (λ b. is_eq (int_cmp (keys left.now b) (keys right.now b))) 0 8 }
{
    if K::PTYPE != L::PTYPE {
        let (left, right) = (left.keys(), right.keys());
        return pack(|b| left[b] == right[b], 8);
    }
    if K::WIDTH < 8 {
        return (left.patterns().simd_eq(right.patterns()).to_bitmask() % 256) as u8;
    }
    pack(|b| one_element(left, right, b), 8)
}

// The rows whose first value is less: valid on the other side, and null on this one or below.
fn lesser_rows(valid: u8, other_valid: u8, below: u8) -> u8
    ensures { result ≡ bit_and other_valid (bit_or (255 - valid) below) }
{
    other_valid & (!valid | below)
}

// The rows whose values are equal: both null, or both valid with one key.
fn equal_rows(left_valid: u8, right_valid: u8, alike: u8) -> u8
    ensures { result ≡ bit_and (255 - bit_xor left_valid right_valid) (bit_or (255 - left_valid) alike) }
{
    !(left_valid ^ right_valid) & (!left_valid | alike)
}

// Bit b is the operator of the order of the two rows b.
#[inline(always)]
pub(crate) fn compare_eight<K: ElementKind, L: ElementKind, T: Spread>(
    op: CompareOperator,
    left: &Eight<K, Beside>,
    left_valid: u8,
    right: &Eight<L, T>,
    right_valid: u8,
) -> u8
    ensures { result ≡ bits (λ b. holds op (order (eighth left_valid (keys left.now) b) (eighth right_valid (keys right.now) b))) 0 8 }
{
    match op {
        CompareOperator::Eq => equal_rows(left_valid, right_valid, alike(left, right)),
        CompareOperator::NotEq => !equal_rows(left_valid, right_valid, alike(left, right)),
        CompareOperator::Lt => lesser_rows(left_valid, right_valid, lower(left, right)),
        CompareOperator::Gte => !lesser_rows(left_valid, right_valid, lower(left, right)),
        CompareOperator::Gt => lesser_rows(right_valid, left_valid, lower(right, left)),
        CompareOperator::Lte => !lesser_rows(right_valid, left_valid, lower(right, left)),
    }
}
