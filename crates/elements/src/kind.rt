// The element kinds: each has a PType, a width in bytes, a reading of that many bytes, and a key.
ghost use Rattle.std.specs.Prelude.{◌≡◌, ℕ, ◌+◌, ◌≤◌, length, refl};
ghost use Rattle.elements.specs.declared.ptype.PType.{PType};
ghost use Rattle.elements.specs.Kinds.{width_of};
ghost use Rattle.elements.specs.Keys.{key_of, by_key, KeyLaw};
ghost use Rattle.elements.specs.KeyLaws.{key_law};
ghost use Rattle.elements.specs.Reading.{pattern_at};

use crate::ptype::PType;
use crate::reader::read_pattern;
use std::cmp::Ordering;

pub trait ElementKind {
    // The type of the elements.
    const PTYPE: PType;

    // The bytes of an element.
    const WIDTH: usize;

    // The two constants, as clauses name them.
    ghost PTYPE: { PType };

    ghost WIDTH: { ℕ };

    // The pattern that stands at `start`.
    fn read(bytes: &[u8], start: usize) -> u64
        requires { start + width_of PTYPE ≤ length bytes.now }
        ensures { result ≡ pattern_at (width_of PTYPE) bytes.now start }
    {
        read_pattern(bytes, start, Self::WIDTH)
    }

    // The key of a pattern.
    fn key_of(pattern: u64) -> i128
        ensures { result ≡ key_of PTYPE pattern }
    {
        Self::PTYPE.key(pattern)
    }

    // The order of two patterns, that of their keys.
    fn total_compare(left: u64, right: u64) -> Ordering
        ensures { result ≡ by_key (key_of PTYPE) left right }
    {
        Self::PTYPE.total_compare(left, right)
    }

    // The width is that of the type.
    ghost wide: { WIDTH ≡ width_of PTYPE };

    // The order of the keys is total and transitive, and Equal only for the same pattern.
    ghost lawful: { KeyLaw (width_of PTYPE) (key_of PTYPE) } = { key_law PTYPE };
}

pub struct U8;

impl ElementKind for U8 {
    const PTYPE: PType = PType::U8;

    const WIDTH: usize = 1;

    ghost PTYPE = { PType.U8 };

    ghost WIDTH = { 1 };

    ghost wide = { refl };
}

pub struct U16;

impl ElementKind for U16 {
    const PTYPE: PType = PType::U16;

    const WIDTH: usize = 2;

    ghost PTYPE = { PType.U16 };

    ghost WIDTH = { 2 };

    ghost wide = { refl };
}

pub struct U32;

impl ElementKind for U32 {
    const PTYPE: PType = PType::U32;

    const WIDTH: usize = 4;

    ghost PTYPE = { PType.U32 };

    ghost WIDTH = { 4 };

    ghost wide = { refl };
}

pub struct U64;

impl ElementKind for U64 {
    const PTYPE: PType = PType::U64;

    const WIDTH: usize = 8;

    ghost PTYPE = { PType.U64 };

    ghost WIDTH = { 8 };

    ghost wide = { refl };
}

pub struct I8;

impl ElementKind for I8 {
    const PTYPE: PType = PType::I8;

    const WIDTH: usize = 1;

    ghost PTYPE = { PType.I8 };

    ghost WIDTH = { 1 };

    ghost wide = { refl };
}

pub struct I16;

impl ElementKind for I16 {
    const PTYPE: PType = PType::I16;

    const WIDTH: usize = 2;

    ghost PTYPE = { PType.I16 };

    ghost WIDTH = { 2 };

    ghost wide = { refl };
}

pub struct I32;

impl ElementKind for I32 {
    const PTYPE: PType = PType::I32;

    const WIDTH: usize = 4;

    ghost PTYPE = { PType.I32 };

    ghost WIDTH = { 4 };

    ghost wide = { refl };
}

pub struct I64;

impl ElementKind for I64 {
    const PTYPE: PType = PType::I64;

    const WIDTH: usize = 8;

    ghost PTYPE = { PType.I64 };

    ghost WIDTH = { 8 };

    ghost wide = { refl };
}

pub struct F16;

impl ElementKind for F16 {
    const PTYPE: PType = PType::F16;

    const WIDTH: usize = 2;

    ghost PTYPE = { PType.F16 };

    ghost WIDTH = { 2 };

    ghost wide = { refl };
}

pub struct F32;

impl ElementKind for F32 {
    const PTYPE: PType = PType::F32;

    const WIDTH: usize = 4;

    ghost PTYPE = { PType.F32 };

    ghost WIDTH = { 4 };

    ghost wide = { refl };
}

pub struct F64;

impl ElementKind for F64 {
    const PTYPE: PType = PType::F64;

    const WIDTH: usize = 8;

    ghost PTYPE = { PType.F64 };

    ghost WIDTH = { 8 };

    ghost wide = { refl };
}

// The law of a kind stands for every kind.
pub fn kind_law<K: ElementKind>() -> PType
    ensures value { result ≡ K.PTYPE }
    ensures law { KeyLaw (width_of result) (key_of result) }
{
    K::PTYPE
}
