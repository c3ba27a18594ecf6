// Row comparators: what orders the rows of two lists.
ghost use Rattle.std.specs.Prelude.{◌≡◌, ℕ, ◌+◌, ◌*◌, ◌^◌, ◌<◌, ◌≤◌, List, length, IfSome};
ghost use Rattle.std.specs.Ordering.{is_eq};
ghost use Rattle.rows.specs.Bits.{bits};
ghost use Rattle.rows.specs.Collected.{result_at};
ghost use Rattle.rows.specs.Operators.{holds};
ghost use Rattle.rows.specs.Row.{Row, order, row};

use crate::operator::CompareOperator;
use std::cmp::Ordering;

pub trait RowComparator {
    // The two lists of row values that the comparator means.
    ghost left: { Self → List Row };

    ghost right: { Self → List Row };

    fn left_len(&self) -> usize
        ensures { result ≡ length (left self.now) };

    fn right_len(&self) -> usize
        ensures { result ≡ length (right self.now) };

    // The order of left row i and right row j. A row past the end is null.
    fn compare(&self, i: usize, j: usize) -> Ordering
        ensures { result ≡ order (row (left self.now) i) (row (right self.now) j) };

    // Whether left row i and right row i are equal, from a comparator that has a faster way than by their order.
    fn same(&self, i: usize) -> Option<bool>
        ensures { IfSome result (λ b. b ≡ is_eq (order (row (left self.now) i) (row (right self.now) i))) }
    {
        None
    }

    // The results of rows 8k to 8k + 7 in a byte, from a comparator that has a faster way than row by row.
    fn whole(&self, op: CompareOperator, k: usize) -> Option<u8>
        requires left_has { 8 * k + 8 ≤ length (left self.now) }
        requires right_has { 8 * k + 8 ≤ length (right self.now) }
        requires in_range { 8 * k + 8 < 2 ^ 64 }
        ensures { IfSome result (λ b. b ≡ bits (result_at (left self.now) (right self.now) op) (8 * k) 8) }
    {
        None
    }

    // The same of left rows 8k to 8k + 7, each against right row j.
    fn against(&self, op: CompareOperator, k: usize, j: usize) -> Option<u8>
        requires left_has { 8 * k + 8 ≤ length (left self.now) }
        requires in_range { 8 * k + 8 < 2 ^ 64 }
        ensures { IfSome result (λ b. b ≡ bits (λ i. holds op (order (row (left self.now) i) (row (right self.now) j))) (8 * k) 8) }
    {
        None
    }
}
