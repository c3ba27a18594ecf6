// Which rows of a column are valid.
ghost use Rattle.std.specs.Prelude.{◌≡◌};
ghost use Rattle.parts.specs.Parts.{valid_at, validity_of, validity_past};

use crate::part::ends_past;

#[derive(Clone, Copy, PartialEq, Eq, Debug)]
pub enum Validity {
    // No row is null, and none could be.
    NonNullable,
    AllValid,
    AllInvalid,
    // A bitmap that begins at this byte of the data: bit 1 is valid.
    Bitmap(usize),
}

impl Validity {
    // Whether the bitmap of so many rows ends past the data, or past the greatest place.
    pub fn ends_past(self, bytes: &[u8], len: usize) -> bool
        ensures { result ≡ validity_past self bytes.now len }
    {
        match self {
            Validity::Bitmap(start) => ends_past(bytes, start, len.div_ceil(8)),
            Validity::NonNullable | Validity::AllValid | Validity::AllInvalid => false,
        }
    }

    // Whether row i is valid. A bit past the data is 0.
    pub fn is_valid(self, bytes: &[u8], i: usize) -> bool
        ensures { result ≡ valid_at self bytes.now i }
    {
        match self {
            Validity::NonNullable | Validity::AllValid => true,
            Validity::AllInvalid => false,
            Validity::Bitmap(start) => match start.checked_add(i / 8) {
                Some(at) => bytes
                    .get(at)
                    .is_some_and(|byte| (*byte >> (i % 8)) % 2 == 1),
                None => false,
            },
        }
    }
}

// The validity by a bitmap that begins at a byte of the data, or by none.
impl From<Option<usize>> for Validity {
    ghost from_gives = { λ start validity. validity ≡ validity_of start };

    fn from(start: Option<usize>) -> Validity {
        start.map_or(Validity::NonNullable, Validity::Bitmap)
    }
}
