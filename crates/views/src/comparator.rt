// The row comparators of text and binary columns: against another column, and against a constant.
ghost use Rattle.std.specs.Prelude.{◌≡◌, true, false, length, replicate};
ghost use Rattle.rows.specs.Row.{null, row, text};
ghost use Rattle.views.specs.Column.{rows_of};

use crate::against::{constant_cmp, constant_eq};
use crate::column::ViewColumn;
use crate::compare::{view_cmp, view_eq};
use crate::constant::TextConstant;
use rows::comparator::RowComparator;
use std::cmp::Ordering;

// Views against views.
#[derive(Clone, Copy)]
pub struct Views<'a> {
    left: ViewColumn<'a>,
    right: ViewColumn<'a>,
}

impl<'a> Views<'a> {
    pub fn new(left: ViewColumn<'a>, right: ViewColumn<'a>) -> Views<'a>
        ensures left_list { rows_of result.left ≡ rows_of left.entry }
        ensures right_list { rows_of result.right ≡ rows_of right.entry }
    {
        Views { left, right }
    }
}

impl<'a> RowComparator for Views<'a> {
    ghost left = { λ s. rows_of s.left };

    ghost right = { λ s. rows_of s.right };

    fn left_len(&self) -> usize {
        self.left.rows()
    }

    fn right_len(&self) -> usize {
        self.right.rows()
    }

    fn compare(&self, i: usize, j: usize) -> Ordering {
        match (self.left.is_valid(i), self.right.is_valid(j)) {
            (true, true) => view_cmp(self.left.view(i), self.right.view(j)),
            (true, false) => Ordering::Greater,
            (false, true) => Ordering::Less,
            (false, false) => Ordering::Equal,
        }
    }

    fn same(&self, i: usize) -> Option<bool> {
        Some(match (self.left.is_valid(i), self.right.is_valid(i)) {
            (true, true) => view_eq(self.left.view(i), self.right.view(i)),
            (left, right) => left == right,
        })
    }
}

// Views against a valid constant: the right list is that value, once for each left row.
#[derive(Clone, Copy)]
pub struct ViewsConstant<'a> {
    left: ViewColumn<'a>,
    constant: TextConstant<'a>,
}

impl<'a> ViewsConstant<'a> {
    pub fn new(left: ViewColumn<'a>, constant: TextConstant<'a>) -> ViewsConstant<'a>
        ensures left_list { rows_of result.left ≡ rows_of left.entry }
        ensures value { result.constant.bytes.now ≡ constant.entry.bytes.now }
    {
        ViewsConstant { left, constant }
    }

    // Whether the right list has a row j.
    fn has_right(&self, j: usize) -> bool
        ensures there { result ≡ true → row (replicate (length (rows_of self.now.left)) (text self.now.constant.bytes.now)) j ≡ text self.now.constant.bytes.now }
        ensures past { result ≡ false → row (replicate (length (rows_of self.now.left)) (text self.now.constant.bytes.now)) j ≡ null }
    {
        j < self.left.rows()
    }
}

impl<'a> RowComparator for ViewsConstant<'a> {
    ghost left = { λ s. rows_of s.left };

    ghost right = { λ s. replicate (length (rows_of s.left)) (text s.constant.bytes.now) };

    fn left_len(&self) -> usize {
        self.left.rows()
    }

    fn right_len(&self) -> usize {
        self.left.rows()
    }

    fn compare(&self, i: usize, j: usize) -> Ordering {
        match (self.left.is_valid(i), self.has_right(j)) {
            (true, true) => constant_cmp(self.left.view(i), self.constant),
            (true, false) => Ordering::Greater,
            (false, true) => Ordering::Less,
            (false, false) => Ordering::Equal,
        }
    }

    fn same(&self, i: usize) -> Option<bool> {
        Some(match (self.left.is_valid(i), self.has_right(i)) {
            (true, true) => constant_eq(self.left.view(i), self.constant),
            (left, right) => left == right,
        })
    }
}
