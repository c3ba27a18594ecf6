// The physical types of elements.
ghost use Rattle.std.specs.Prelude.{◌≡◌};
ghost use Rattle.elements.specs.Kinds.{class_of, code_of, coded, width_of};

use faults::ColumnFault;

#[derive(Clone, Copy, PartialEq, Eq, Debug)]
pub enum PType {
    U8,
    U16,
    U32,
    U64,
    I8,
    I16,
    I32,
    I64,
    F16,
    F32,
    F64,
}

// How a pattern is read as a number.
#[derive(Clone, Copy, PartialEq, Eq, Debug)]
pub enum Class {
    Unsigned,
    Signed,
    Float,
}

// The type with this code, 0 to 10.
impl TryFrom<u64> for PType {
    type Error = ColumnFault;

    ghost try_from_gives = { λ n r. r ≡ coded n };

    fn try_from(code: u64) -> Result<PType, ColumnFault> {
        match code {
            0 => Ok(PType::U8),
            1 => Ok(PType::U16),
            2 => Ok(PType::U32),
            3 => Ok(PType::U64),
            4 => Ok(PType::I8),
            5 => Ok(PType::I16),
            6 => Ok(PType::I32),
            7 => Ok(PType::I64),
            8 => Ok(PType::F16),
            9 => Ok(PType::F32),
            10 => Ok(PType::F64),
            _ => Err(ColumnFault::Kind),
        }
    }
}

// The code of a type.
impl From<PType> for u8 {
    ghost from_gives = { λ p n. n ≡ code_of p };

    fn from(ptype: PType) -> u8 {
        ptype as u8
    }
}

impl PType {
    pub fn class(self) -> Class
        ensures { result ≡ class_of self }
    {
        match self {
            PType::U8 | PType::U16 | PType::U32 | PType::U64 => Class::Unsigned,
            PType::I8 | PType::I16 | PType::I32 | PType::I64 => Class::Signed,
            PType::F16 | PType::F32 | PType::F64 => Class::Float,
        }
    }

    // The width in bytes.
    pub fn byte_width(self) -> usize
        ensures { result ≡ width_of self }
    {
        match self {
            PType::U8 | PType::I8 => 1,
            PType::U16 | PType::I16 | PType::F16 => 2,
            PType::U32 | PType::I32 | PType::F32 => 4,
            PType::U64 | PType::I64 | PType::F64 => 8,
        }
    }
}
