// The making of a number column, and the reading of its rows.
ghost use Rattle.std.specs.Prelude.{◌≡◌, ℕ, ◌+◌, ◌*◌, ◌<◌, ◌≤◌, length, IfOk, MatchOption};
ghost use Rattle.elements.specs.Kinds.{width_of};
ghost use Rattle.parts.specs.Parts.{valid_at, fault_of};
ghost use Rattle.rows.specs.Row.{null, number, row};
ghost use Rattle.numbers.specs.Columns.{number_fault, key_at, number_rows, read_row};
ghost use Rattle.numbers.specs.Column.{rows_of};
ghost use Rattle.numbers.specs.Eights.{bit};
ghost use Rattle.numbers.specs.Eight.{keys};

use crate::column::NumberColumn;
use crate::eight::{Beside, Eight, Fixed};
use elements::kind::ElementKind;
use faults::ColumnFault;
use parts::part::{MOST_ROWS, ends_past};
use parts::validity::Validity;
use std::marker::PhantomData;

impl<'a, K: ElementKind> NumberColumn<'a, K> {
    // `len` elements from byte `start` of the data on.
    pub fn new(
        bytes: &'a [u8],
        start: usize,
        validity: Validity,
        len: usize,
    ) -> Result<NumberColumn<'a, K>, ColumnFault>
        ensures answers { fault_of result ≡ number_fault (width_of K.PTYPE) bytes.now start validity len }
        ensures means { IfOk result (λ c. rows_of c ≡ number_rows K.PTYPE bytes.now start validity len) }
    {
        if len > MOST_ROWS {
            return Err(ColumnFault::Rows);
        }
        if validity.ends_past(bytes, len) || ends_past(bytes, start, K::WIDTH * len) {
            return Err(ColumnFault::Range);
        }
        let kind = PhantomData;
        Ok(NumberColumn {
            bytes,
            start,
            validity,
            len,
            kind,
        })
    }

    // How many rows there are.
    pub fn rows(&self) -> usize
        ensures stands { result ≡ self.now.len }
        ensures value { result ≡ length (rows_of self.now) }
    {
        self.len
    }

    // The element of row i eight times, or none where the row is null or past the end.
    pub(crate) fn repeated(&self, i: usize) -> Option<Eight<'a, K, Fixed>>
        ensures { MatchOption result (row (rows_of self.now) i ≡ null) (λ e. (b : ℕ) → row (rows_of self.now) i ≡ number (keys e b)) }
    {
        if i >= self.len || !self.validity.is_valid(self.bytes, i) {
            return None;
        }
        Some(Eight {
            bytes: self.bytes,
            start: self.start + K::WIDTH * i,
            of: PhantomData,
        })
    }

    // The key of row i, or none where the row is null or past the end.
    pub fn get(&self, i: usize) -> Option<i128>
        ensures { read_row result ≡ row (rows_of self.now) i }
    {
        Some(self.repeated(i)?.key(0))
    }

    // The elements 8k to 8k + 7.
    pub(crate) fn eight(&self, k: usize) -> Eight<'a, K, Beside>
        requires { 8 * k + 8 ≤ self.now.len }
        ensures { (b : ℕ) → keys result b ≡ key_at K.PTYPE self.now.bytes.now self.now.start (8 * k + b) }
    {
        Eight {
            bytes: self.bytes,
            start: self.start + K::WIDTH * (8 * k),
            of: PhantomData,
        }
    }

    // The valid rows among rows 8k to 8k + 7.
    pub(crate) fn valid_byte(&self, k: usize) -> u8
        requires { 8 * k + 8 ≤ self.now.len }
        ensures { (b : ℕ) → b < 8 → bit result b ≡ valid_at self.now.validity self.now.bytes.now (8 * k + b) }
    {
        match self.validity {
            Validity::NonNullable | Validity::AllValid => 255,
            Validity::AllInvalid => 0,
            Validity::Bitmap(start) => self.bytes[start + k],
        }
    }
}
