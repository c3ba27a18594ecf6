// The parts of a column of text or binary values and their check, and the making of the column.
ghost use Rattle.std.specs.Prelude.{◌≡◌, ◌+◌, ◌*◌, ◌≤◌, length};
ghost use Rattle.parts.specs.Parts.{fault_of};
ghost use Rattle.views.specs.Texts.{column_texts, first_fault, parts_fault, row_fault_in, rows_standing, text_fault, with_pair};
ghost use Rattle.views.specs.Column.{rows_of};

use crate::column::ViewColumn;
use crate::view::View;
use faults::{ColumnFault, ViewFault};
use parts::part::{MOST_ROWS, Part, any_ends_past, ends_past};
use parts::validity::Validity;

// `len` views from byte `views` of the data on, over some buffers in it.
#[derive(Clone, Copy)]
pub struct TextParts<'a> {
    pub bytes: &'a [u8],
    pub buffers: &'a [Part],
    pub views: usize,
    pub validity: Validity,
    pub len: usize,
}

impl<'a> TextParts<'a> {
    // Checks the view of row i, where the row is valid. A null row is not looked at.
    fn check_row(&self, i: usize) -> Result<(), (usize, ViewFault)>
        requires { self.now.views + 16 * i + 16 ≤ length self.now.bytes.now }
        ensures { with_pair (fault_of result) ≡ row_fault_in self.now i }
    {
        if !self.validity.is_valid(self.bytes, i) {
            return Ok(());
        }
        let view = View::read_within(self.bytes, self.views + 16 * i);
        view.check(self.bytes, self.buffers)
            .map_err(|fault| (i, fault))
    }

    // Checks the valid rows, from row 0 on.
    fn check_rows(&self) -> Result<(), ColumnFault>
        requires { self.now.views + 16 * self.now.len ≤ length self.now.bytes.now }
        ensures { fault_of result ≡ first_fault (row_fault_in self.now) 0 self.now.len }
    {
        for i in 0..self.len {
            self.check_row(i)?;
        }
        Ok(())
    }

    // Why a column of these parts is refused, if it is.
    pub fn check(&self) -> Result<(), ColumnFault>
        ensures { fault_of result ≡ parts_fault self.now }
    {
        if self.len > MOST_ROWS {
            return Err(ColumnFault::Rows);
        }
        let past = ends_past(self.bytes, self.views, 16 * self.len)
            || any_ends_past(self.bytes, self.buffers);
        if self.validity.ends_past(self.bytes, self.len) || past {
            return Err(ColumnFault::Range);
        }
        self.check_rows()
    }
}

impl<'a> ViewColumn<'a> {
    // Where the column is refused it has no rows, and `check` says why.
    pub fn new(
        bytes: &'a [u8],
        buffers: &'a [Part],
        views: usize,
        validity: Validity,
        len: usize,
    ) -> ViewColumn<'a>
        ensures answers { fault_of result.checked ≡ text_fault bytes.now buffers.now views validity len }
        ensures means { rows_of result ≡ column_texts bytes.now buffers.now views validity len }
    {
        let parts = TextParts {
            bytes,
            buffers,
            views,
            validity,
            len,
        };
        let checked = parts.check();
        ViewColumn { parts, checked }
    }

    // Why the column is refused, if it is.
    pub fn check(&self) -> Result<(), ColumnFault>
        ensures { fault_of result ≡ fault_of self.now.checked }
    {
        self.checked
    }

    // How many rows there are.
    pub fn rows(&self) -> usize
        ensures stands { result ≡ rows_standing (fault_of self.now.checked) self.now.parts.len }
        ensures value { result ≡ length (rows_of self.now) }
    {
        match self.checked {
            Ok(()) => self.parts.len,
            Err(_) => 0,
        }
    }
}
