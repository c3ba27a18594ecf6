// Parts of the data.
ghost use Rattle.std.specs.Prelude.{◌≡◌};
ghost use Rattle.parts.specs.Parts.{ends_past, part_past, parts_past, part_bytes};

// The most rows that a column may have.
pub const MOST_ROWS: usize = 16_777_216;

// No part of the data ends past this place.
const GREATEST_PLACE: usize = 2_147_483_647;

// Whether `size` bytes from `start` on end past the data, or past the greatest place.
pub fn ends_past(bytes: &[u8], start: usize, size: usize) -> bool
    ensures { result ≡ ends_past bytes.now start size }
{
    start
        .checked_add(size)
        .is_none_or(|end| end > bytes.len().min(GREATEST_PLACE))
}

// A buffer or a name: where it starts, and how many bytes it has.
#[derive(Clone, Copy, PartialEq, Eq, Debug)]
pub struct Part {
    pub start: usize,
    pub len: usize,
}

impl Part {
    // Whether it ends past the data, or past the greatest place.
    pub fn ends_past(self, bytes: &[u8]) -> bool
        ensures { result ≡ part_past bytes.now self }
    {
        ends_past(bytes, self.start, self.len)
    }

    // What the data has of it.
    pub fn of<'a>(self, bytes: &'a [u8]) -> &'a [u8]
        ensures { result.now ≡ part_bytes bytes.now self }
    {
        let rest = &bytes[self.start.min(bytes.len())..];
        &rest[..self.len.min(rest.len())]
    }
}

// Whether one of some parts ends past the data, or past the greatest place.
pub fn any_ends_past(bytes: &[u8], parts: &[Part]) -> bool
    ensures { result ≡ parts_past bytes.now parts.now }
{
    parts.iter().any(|part| part.ends_past(bytes))
}
