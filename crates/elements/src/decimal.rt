// Decimals: a signed stored number, a precision and a scale.
ghost use Rattle.std.specs.Prelude.{◌≡◌, is_ok, Some, MatchResult};
ghost use Rattle.faults.specs.declared.ColumnFault.TheVariants.{Kind};
ghost use Rattle.elements.specs.Decimals.{decimal_ranges, stored_as};

use crate::ptype::PType;
use faults::ColumnFault;

#[derive(Clone, Copy, PartialEq, Eq, Debug)]
pub struct DecimalType {
    precision: u8,
    scale: i8,
    stored: PType,
}

// The kind that reads a stored number of so many bytes.
fn stored_type(width: u64) -> Option<PType>
    ensures { result ≡ stored_as width }
{
    match width {
        1 => Some(PType::I8),
        2 => Some(PType::I16),
        4 => Some(PType::I32),
        8 => Some(PType::I64),
        _ => None,
    }
}

impl DecimalType {
    // Precision 1 to 18, scale −128 to 127, and a stored number of 1, 2, 4 or 8 bytes.
    pub fn new(precision: u64, scale: i64, width: u64) -> Result<DecimalType, ColumnFault>
        ensures answers { is_ok result ≡ decimal_ranges precision scale width }
        ensures value { MatchResult result (λ d. (d.precision ≡ precision) × (d.scale ≡ scale) × (Some d.stored ≡ stored_as width)) (λ f. f ≡ Kind) }
    {
        let stored = stored_type(width).ok_or(ColumnFault::Kind)?;
        let scale = i8::try_from(scale).map_err(|_| ColumnFault::Kind)?;
        if !(1..=18).contains(&precision) {
            return Err(ColumnFault::Kind);
        }
        Ok(DecimalType {
            precision: precision as u8,
            scale,
            stored,
        })
    }

    pub fn precision(self) -> u8
        ensures { result ≡ self.precision }
    {
        self.precision
    }

    pub fn scale(self) -> i8
        ensures { result ≡ self.scale }
    {
        self.scale
    }

    // The kind whose key is the stored number.
    pub fn stored(self) -> PType
        ensures { result ≡ self.stored }
    {
        self.stored
    }
}
