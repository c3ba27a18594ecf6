// The rows of a column of text or binary values, and where each value stands.
ghost use Rattle.std.specs.Prelude.{◌≡◌, ◌<◌, true, false, not, length};
ghost use Rattle.std.specs.declared.cmp.Ordering.TheVariants.{Less, Greater};
ghost use Rattle.rows.specs.Row.{is_null, null, order, row, text};
ghost use Rattle.views.specs.Column.{rows_of};
ghost use Rattle.views.specs.Resolved.{image, value};
ghost use Rattle.views.specs.Texts.{read_text};
ghost use Rattle.views.specs.View.{size_of, view_bytes};
ghost use Rattle.views.specs.Words.{Words};

use crate::column::ViewColumn;
use crate::resolved::ResolvedView;
use crate::told::Told;
use crate::view::View;

impl<'a> ResolvedView<'a> {
    // A value that its view does not hold, as the part of the data where it stands.
    fn long_value(self, view: View) -> &'a [u8]
        requires long { 12 < size_of (view_bytes view) }
        requires own { view_bytes view ≡ image self }
        ensures { result.now ≡ value self.entry }
    {
        let buffer = self.buffers[view.index() as usize].of(self.bytes);
        let start = view.offset() as usize;
        &buffer[start..start + view.size() as usize]
    }

    // The length of the value.
    pub fn len(self) -> usize
        ensures { result ≡ length (value self.entry) }
    {
        self.words().size() as usize
    }
}

impl<'a> Told<'a> for ResolvedView<'a> {
    ghost told = { value };

    ghost image = { image };

    fn words(self) -> View
        ensures image { view_bytes result ≡ image self.entry }
        ensures tells { Words (view_bytes result) (value self.entry) }
        ensures size { size_of (view_bytes result) ≡ length (value self.entry) }
    {
        View::read_within(self.bytes, self.at)
    }

    fn has_front(self) -> bool {
        self.words().is_inlined()
    }

    // The value as the part of the data where it stands, be that the view itself.
    fn value(self) -> &'a [u8]
        ensures { result.now ≡ value self.entry }
    {
        let view = self.words();
        if view.is_inlined() {
            let start = self.at + 4;
            return &self.bytes[start..start + view.size() as usize];
        }
        self.long_value(view)
    }
}

impl<'a> ViewColumn<'a> {
    // Whether row i is there and not null.
    pub fn is_valid(&self, i: usize) -> bool
        ensures value { result ≡ not (is_null (row (rows_of self.now) i)) }
        ensures invalid { result ≡ false → row (rows_of self.now) i ≡ null }
        ensures above { result ≡ true → order (row (rows_of self.now) i) null ≡ Greater }
        ensures below { result ≡ true → order null (row (rows_of self.now) i) ≡ Less }
    {
        i < self.rows() && self.parts.validity.is_valid(self.parts.bytes, i)
    }

    // The view of a valid row.
    pub(crate) fn view(&self, i: usize) -> ResolvedView<'a>
        requires { is_null (row (rows_of self.now) i) ≡ false }
        ensures { row (rows_of self.now) i ≡ text (value result) }
    {
        let bytes = self.parts.bytes;
        let buffers = self.parts.buffers;
        let at = self.parts.views + 16 * i;
        ResolvedView { at, bytes, buffers }
    }

    // The value of row i where it stands in the data, or none where the row is null or past the end.
    pub fn get(&self, i: usize) -> Option<&'a [u8]>
        ensures { read_text result ≡ row (rows_of self.now) i }
    {
        if !self.is_valid(i) {
            return None;
        }
        Some(self.view(i).value())
    }
}
