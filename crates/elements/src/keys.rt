// The keys of patterns.
ghost use Rattle.std.specs.Prelude.{◌≡◌, ℕ, ◌*◌, ◌≤◌};
ghost use Rattle.elements.specs.declared.ptype.Class.TheVariants.{Signed, Float};
ghost use Rattle.elements.specs.Kinds.{width_of};
ghost use Rattle.elements.specs.Keys.{key_of, key_by, by_key, low_bytes};

use crate::ptype::{Class, PType};
use std::cmp::Ordering;

impl PType {
    // The width in bits.
    fn bits(self) -> usize
        ensures value { result ≡ 8 * width_of self }
        ensures least { 8 ≤ result }
        ensures most { result ≤ 64 }
    {
        8 * self.byte_width()
    }

    // The number in the lowest bytes.
    #[tactic(auto, using(crate::proofs::KeyForms::masked))]
    fn low_number(self, pattern: u64) -> u64
        ensures { result ≡ low_bytes (width_of self) pattern }
    {
        pattern & (u64::MAX >> (64 - self.bits()))
    }

    // The signed number in the lowest bytes: what stands above them is shifted out, and the sign shifted back in.
    #[tactic(auto, using(crate::proofs::KeyForms::shifted))]
    fn signed_key(self, pattern: u64) -> i64
        ensures { result ≡ key_by Signed (width_of self) (low_bytes (width_of self) pattern) }
    {
        let above = 64 - self.bits();
        (pattern << above).cast_signed() >> above
    }

    // The key of the float in the lowest bytes. Without a branch: where the sign bit is set, all bits below it are flipped,
    // and the number is then read as a signed one.
    #[tactic(auto, using(crate::proofs::KeyForms::float_bits))]
    fn float_key(self, pattern: u64) -> i64
        ensures { result ≡ key_by Float (width_of self) (low_bytes (width_of self) pattern) }
    {
        let bits = self.bits();
        let low = self.low_number(pattern);
        let set = low >> (bits - 1);
        let flip = 0u64.wrapping_sub(set) >> (65 - bits);
        self.signed_key(low ^ flip)
    }

    // The key of the pattern in the lowest bytes: an integer's value; of a float whose pattern without the sign bit is m,
    // m where the sign bit is clear and −1 − m where it is set.
    #[tactic(auto, unfolding(crate::specs::Keys::key_of, crate::specs::Keys::key_by))]
    pub fn key(self, pattern: u64) -> i128
        ensures { result ≡ key_of self pattern }
    {
        match self.class() {
            Class::Unsigned => self.low_number(pattern) as i128,
            Class::Signed => self.signed_key(pattern) as i128,
            Class::Float => self.float_key(pattern) as i128,
        }
    }

    // The order of two patterns, that of their keys.
    pub fn total_compare(self, left: u64, right: u64) -> Ordering
        ensures { result ≡ by_key (key_of self) left right }
    {
        self.key(left).cmp(&self.key(right))
    }
}
