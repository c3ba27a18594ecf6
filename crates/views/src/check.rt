// Whether a view is well-formed.
ghost use Rattle.std.specs.Prelude.{◌≡◌, ◌+◌, true, false, length, take, drop, MatchOption, MatchResult, nat_le, nat_lt};
ghost use Rattle.std.specs.Str.{bytes_eq};
ghost use Rattle.parts.specs.Parts.{fault_of};
ghost use Rattle.views.specs.View.{all_zero, buffer_of, index_of, offset_of, prefix_of, size_of, view_bytes, view_fault, WellFormed};

use crate::view::View;
use faults::ViewFault;
use parts::part::Part;

// Whether every byte is zero.
fn are_zero(bytes: &[u8]) -> bool
    ensures { result ≡ all_zero bytes.now }
{
    bytes.iter().all(|b| *b == 0)
}

impl View {
    // What is wrong with the view, if anything, over the data and a list of buffers in it.
    pub fn check(self, bytes: &[u8], buffers: &[Part]) -> Result<(), ViewFault>
        ensures answers { fault_of result ≡ view_fault bytes.now buffers.now (view_bytes self) }
        ensures formed { MatchResult result (λ _. WellFormed bytes.now buffers.now (view_bytes self)) (λ _. WellFormed bytes.now buffers.now (view_bytes self) → ⊥) }
    {
        self.find_fault(bytes, buffers)
    }

    fn find_fault(self, bytes: &[u8], buffers: &[Part]) -> Result<(), ViewFault>
        ensures { fault_of result ≡ view_fault bytes.now buffers.now (view_bytes self) }
    {
        if self.is_inlined() {
            if !self.is_padded() {
                return Err(ViewFault::Padding);
            }
            return Ok(());
        }
        let buffer = self.buffer(bytes, buffers).ok_or(ViewFault::Index)?;
        if self.ends_past(buffer) {
            return Err(ViewFault::End);
        }
        if !self.begins_in(buffer) {
            return Err(ViewFault::Prefix);
        }
        Ok(())
    }

    // Whether every byte behind a short value is zero.
    fn is_padded(self) -> bool
        requires { nat_le (size_of (view_bytes self)) 12 ≡ true }
        ensures { result ≡ all_zero (drop (4 + size_of (view_bytes self)) (view_bytes self)) }
    {
        let inlined = self.inlined_bytes();
        are_zero(&inlined[self.size() as usize..12])
    }

    // The bytes of the buffer of a long value.
    fn buffer<'a>(self, bytes: &'a [u8], buffers: &[Part]) -> Option<&'a [u8]>
        ensures { MatchOption result (nat_le (length buffers.now) (index_of (view_bytes self)) ≡ true) (λ b. (nat_le (length buffers.now) (index_of (view_bytes self)) ≡ false) × (b.now ≡ buffer_of bytes.now buffers.now (view_bytes self))) }
    {
        let buffer = buffers.get(self.index() as usize)?;
        Some(buffer.of(bytes))
    }

    // Whether a long value ends past its buffer.
    fn ends_past(self, buffer: &[u8]) -> bool
        ensures { result ≡ nat_lt (length buffer.now) (offset_of (view_bytes self) + size_of (view_bytes self)) }
    {
        self.offset() as usize + self.size() as usize > buffer.len()
    }

    // Whether a long value begins with the four bytes that the view repeats.
    fn begins_in(self, buffer: &[u8]) -> bool
        requires long { nat_le (size_of (view_bytes self)) 12 ≡ false }
        requires within { nat_lt (length buffer.now) (offset_of (view_bytes self) + size_of (view_bytes self)) ≡ false }
        ensures { result ≡ bytes_eq (prefix_of (view_bytes self)) (take 4 (take (size_of (view_bytes self)) (drop (offset_of (view_bytes self)) buffer.now))) }
    {
        let inlined = self.inlined_bytes();
        let start = self.offset() as usize;
        &inlined[0..4] == &buffer[start..start + 4]
    }
}
