// The comparator of two number columns.
ghost use Rattle.std.specs.Prelude.{◌≡◌};
ghost use Rattle.numbers.specs.Column.{rows_of};

use crate::column::NumberColumn;
use crate::pairs::compare_eight;
use elements::kind::ElementKind;
use rows::comparator::RowComparator;
use rows::operator::CompareOperator;
use std::cmp::Ordering;

// Each side is of any element kind. Where the kinds differ, the keys meet.
#[derive(Drop)]
pub struct Numbers<'a, L: ElementKind, R: ElementKind> {
    left: NumberColumn<'a, L>,
    right: NumberColumn<'a, R>,
}

impl<'a, L: ElementKind, R: ElementKind> Numbers<'a, L, R> {
    pub fn new(left: NumberColumn<'a, L>, right: NumberColumn<'a, R>) -> Numbers<'a, L, R>
        ensures left_list { rows_of result.left ≡ rows_of left.entry }
        ensures right_list { rows_of result.right ≡ rows_of right.entry }
    {
        Numbers { left, right }
    }
}

impl<'a, L: ElementKind, R: ElementKind> RowComparator for Numbers<'a, L, R> {
    ghost left = { λ s. rows_of s.left };

    ghost right = { λ s. rows_of s.right };

    fn left_len(&self) -> usize {
        self.left.rows()
    }

    fn right_len(&self) -> usize {
        self.right.rows()
    }

    fn compare(&self, i: usize, j: usize) -> Ordering {
        self.left.get(i).cmp(&self.right.get(j))
    }

    #[inline(always)]
    #[tactic(auto, using(crate::proofs::Cells::cells_length))]
    fn whole(&self, op: CompareOperator, k: usize) -> Option<u8> {
        let (left, left_valid) = (self.left.eight(k), self.left.valid_byte(k));
        let (right, right_valid) = (self.right.eight(k), self.right.valid_byte(k));
        Some(compare_eight(op, &left, left_valid, &right, right_valid))
    }

    #[inline(always)]
    #[tactic(auto, using(crate::proofs::Cells::cells_length))]
    fn against(&self, op: CompareOperator, k: usize, j: usize) -> Option<u8> {
        let (left, left_valid) = (self.left.eight(k), self.left.valid_byte(k));
        Some(match self.right.repeated(j) {
            Some(right) => compare_eight(op, &left, left_valid, &right, 255),
            // A null row has no key: any will do.
            None => compare_eight(op, &left, left_valid, &left, 0),
        })
    }
}
