// The fixed row: each left row against one right row.
ghost use Rattle.std.specs.Prelude.{◌≡◌, length, replicate};
ghost use Rattle.rows.specs.Row.{row};

use crate::comparator::RowComparator;
use crate::operator::CompareOperator;
use std::cmp::Ordering;

// Over any comparator: its right list is row 0 from below, once for each left row.
#[derive(Clone, Copy, Drop)]
pub struct FixedRow<C> {
    below: C,
}

impl<C: RowComparator> FixedRow<C> {
    pub fn new(below: C) -> FixedRow<C>
        ensures left_list { C.left result.below ≡ C.left below }
        ensures right_list { C.right result.below ≡ C.right below }
    {
        FixedRow { below }
    }
}

impl<C: RowComparator> RowComparator for FixedRow<C> {
    ghost left = { λ s. C.left s.below };

    ghost right = { λ s. replicate (length (C.left s.below)) (row (C.right s.below) 0) };

    fn left_len(&self) -> usize {
        self.below.left_len()
    }

    fn right_len(&self) -> usize {
        self.below.left_len()
    }

    fn compare(&self, i: usize, j: usize) -> Ordering {
        // Past its end the right list is null, as the one below is past its own.
        let row = if j < self.below.left_len() {
            0
        } else {
            self.below.right_len()
        };
        self.below.compare(i, row)
    }

    #[inline(always)]
    fn whole(&self, op: CompareOperator, k: usize) -> Option<u8> {
        self.below.against(op, k, 0)
    }
}
