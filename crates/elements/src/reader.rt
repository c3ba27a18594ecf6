// Numbers as they stand in the data.
ghost use Rattle.std.specs.Prelude.{◌≡◌, ℕ, ◌+◌, ◌≤◌, true, length, take, drop};
ghost use Rattle.elements.specs.Kinds.{is_width};
ghost use Rattle.elements.specs.Reading.{pattern_at};

// The N bytes from `start` on.
fn array_at<const N: usize>(bytes: &[u8], start: usize) -> [u8; N]
    requires { start + N ≤ length bytes.now }
    ensures { result ≡ take N (drop start bytes.now) }
{
    <[u8; N]>::try_from(&bytes[start..start + N]).unwrap()
}

// The pattern in the `width` bytes from `start` on: every number of the data is read here.
pub(crate) fn read_pattern(bytes: &[u8], start: usize, width: usize) -> u64
    requires wide { is_width width ≡ true }
    requires within { start + width ≤ length bytes.now }
    ensures { result ≡ pattern_at width bytes.now start }
{
    match width {
        1 => bytes[start] as u64,
        2 => u16::from_le_bytes(array_at(bytes, start)) as u64,
        4 => u32::from_le_bytes(array_at(bytes, start)) as u64,
        _ => u64::from_le_bytes(array_at(bytes, start)),
    }
}
