// The bytes of board files: fields and decimal numbers.
ghost use Rattle.std.specs.Prelude.{◌≡◌, ℕ, ◌+◌, ◌<◌, length, take, drop, IfSome, Some, None, MatchOption};
ghost use Rattle.duty.specs.Files.{place, digit_after, digits_from};

// The place of the first byte b.
pub fn find_byte(bytes: &[u8], b: u8) -> Option<usize>
    ensures value { result ≡ place b bytes.now }
    ensures within { IfSome result (λ i. i < length bytes.now) }
{
    bytes.iter().position(|x| *x == b)
}

// What stands before the first byte b, and what stands after it.
pub fn split_once<'a>(bytes: &'a [u8], b: u8) -> Option<(&'a [u8], &'a [u8])>
    ensures { MatchOption result (place b bytes.now ≡ None) (λ parts. (i : ℕ) × (place b bytes.now ≡ Some i) × (parts.0.now ≡ take i bytes.now) × (parts.1.now ≡ drop (i + 1) bytes.now)) }
{
    let i = find_byte(bytes, b)?;
    Some((&bytes[..i], &bytes[i + 1..]))
}

// One decimal digit more behind a number: none for another byte, and past 64 bits.
fn digit_after(number: u64, x: u8) -> Option<u64>
    ensures { result ≡ digit_after number x }
{
    if x < b'0' || x > b'9' {
        return None;
    }
    number.checked_mul(10)?.checked_add((x - b'0') as u64)
}

// The number that decimal digits write: none for another byte, and for a number of more than 64 bits.
pub fn read_digits(digits: &[u8]) -> Option<u64>
    ensures { result ≡ digits_from 0 digits.now }
{
    let mut number = 0u64;
    for x in digits {
        number = digit_after(number, *x)?;
    }
    Some(number)
}
