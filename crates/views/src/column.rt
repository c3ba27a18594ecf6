// A column of text or binary values that is read in place.
ghost use Rattle.std.specs.Prelude.{◌≡◌};
ghost use Rattle.parts.specs.Parts.{fault_of};
ghost use Rattle.views.specs.Texts.{parts_fault};

use crate::texts::TextParts;
use faults::ColumnFault;

#[derive(Clone, Copy)]
pub struct ViewColumn<'a> {
    pub(crate) parts: TextParts<'a>,
    // Why the column is refused, if it is. One that is refused has no rows.
    pub(crate) checked: Result<(), ColumnFault>,
    ghost told: { fault_of checked ≡ parts_fault parts },
}
