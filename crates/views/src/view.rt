// A view of sixteen bytes, as two words.
ghost use Rattle.std.specs.Prelude.{◌≡◌, ℕ, ◌+◌, ◌<◌, ◌≤◌, length, take, drop, MatchOption, nat_le};
ghost use Rattle.std.specs.Int.Digits.{number_from_digits};
ghost use Rattle.views.specs.View.{view_bytes, size_of, prefix_of, index_of, offset_of};

use elements::kind::{ElementKind, U64};

// The most bytes of a value that stands in the view itself.
pub const MAX_INLINED_SIZE: u32 = 12;

#[derive(Clone, Copy, PartialEq, Eq, Debug)]
pub struct View {
    // Bytes 0 to 7: the size, and the first four bytes of the value.
    pub(crate) low: u64,
    // Bytes 8 to 15: the rest of a short value; of a long one the buffer index and the offset.
    pub(crate) high: u64,
}

impl View {
    // The view whose sixteen bytes begin at `at`, where the data has them all.
    pub fn read(bytes: &[u8], at: usize) -> Option<View>
        ensures { MatchOption result (length bytes.now < at + 16) (λ v. view_bytes v ≡ take 16 (drop at bytes.now)) }
    {
        if at.checked_add(16)? > bytes.len() {
            return None;
        }
        Some(View::read_within(bytes, at))
    }

    pub(crate) fn read_within(bytes: &[u8], at: usize) -> View
        requires { at + 16 ≤ length bytes.now }
        ensures { view_bytes result ≡ take 16 (drop at bytes.now) }
    {
        let low = U64::read(bytes, at);
        let high = U64::read(bytes, at + 8);
        View { low, high }
    }

    // The size and the first four bytes of the value, as one word.
    pub fn head(self) -> u64
        ensures { result ≡ self.low }
    {
        self.low
    }

    // The last eight bytes, which are the rest of a short value.
    pub fn inlined_word(self) -> u64
        ensures { result ≡ self.high }
    {
        self.high
    }

    pub fn size(self) -> u32
        ensures { result ≡ size_of (view_bytes self) }
    {
        (self.low & 0xFFFF_FFFF) as u32
    }

    // Whether the whole value stands in the view.
    pub fn is_inlined(self) -> bool
        ensures { result ≡ nat_le (size_of (view_bytes self)) 12 }
    {
        self.size() <= MAX_INLINED_SIZE
    }

    pub fn index(self) -> u32
        ensures { result ≡ index_of (view_bytes self) }
    {
        (self.high & 0xFFFF_FFFF) as u32
    }

    pub fn offset(self) -> u32
        ensures { result ≡ offset_of (view_bytes self) }
    {
        (self.high >> 32) as u32
    }

    // The first four bytes of the value as a number that orders as they do: the first byte is the highest.
    pub fn order_prefix(self) -> u32
        ensures { result ≡ number_from_digits 256 (prefix_of (view_bytes self)) }
    {
        ((self.low >> 32) as u32).swap_bytes()
    }

    // The last eight bytes as such a number.
    pub fn order_tail(self) -> u64
        ensures { result ≡ number_from_digits 256 (drop 8 (view_bytes self)) }
    {
        self.high.swap_bytes()
    }

    // The last twelve bytes: a short value, and what stands behind it.
    pub fn inlined_bytes(self) -> [u8; 12]
        ensures { result ≡ drop 4 (view_bytes self) }
    {
        let mut bytes = [0u8; 12];
        bytes[0..4].copy_from_slice(&self.low.to_le_bytes()[4..8]);
        bytes[4..12].copy_from_slice(&self.high.to_le_bytes());
        bytes
    }
}
