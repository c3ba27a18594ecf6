// Views against a constant value: by the constant's words where those decide, and else by the whole values.
ghost use Rattle.std.specs.Prelude.{◌≡◌, ◌++◌, length};
ghost use Rattle.std.specs.Ordering.{is_eq};
ghost use Rattle.views.specs.Image.{image_of};
ghost use Rattle.views.specs.Resolved.{value};
ghost use Rattle.views.specs.View.{view_bytes};
ghost use Rattle.views.specs.Window.{byte_order};
ghost use Rattle.views.specs.Words.{Whole, Words};

use crate::compare::{told_cmp, told_eq};
use crate::constant::TextConstant;
use crate::resolved::ResolvedView;
use crate::told::Told;
use crate::view::View;
use std::cmp::Ordering;

// The sixteen bytes: the size, and the first twelve of some bytes.
fn image_bytes(bytes: &[u8]) -> [u8; 16]
    ensures { result ≡ image_of bytes.now }
{
    let mut image = [0u8; 16];
    let n = bytes.len().min(12);
    let size = bytes.len().min(0xFFFF_FFFF) as u32;
    image[0..4].copy_from_slice(&size.to_le_bytes());
    image[4..4 + n].copy_from_slice(&bytes[0..n]);
    image
}

impl<'a> TextConstant<'a> {
    pub fn new(bytes: &'a [u8]) -> TextConstant<'a>
        ensures { result.bytes.now ≡ bytes.now }
    {
        let image = View::read_within(&image_bytes(bytes), 0);
        TextConstant { bytes, image }
    }

    // The words that a view of the constant would have, and what they tell.
    pub fn words(self) -> View
        ensures view { result ≡ self.entry.image }
        ensures tells { Words (view_bytes result) self.entry.bytes.now }
        ensures whole { Whole (view_bytes result) self.entry.bytes.now }
    {
        self.image
    }
}

impl<'a> Told<'a> for TextConstant<'a> {
    ghost told = { λ s. s.bytes.now };

    ghost image = { λ s. view_bytes s.image };

    fn words(self) -> View
        ensures view { result ≡ self.entry.image }
        ensures image { view_bytes result ≡ view_bytes self.entry.image }
        ensures tells { Words (view_bytes result) self.entry.bytes.now }
        ensures whole { Whole (view_bytes result) self.entry.bytes.now }
    {
        TextConstant::words(self)
    }

    fn has_front(self) -> bool {
        true
    }

    fn value(self) -> &'a [u8] {
        self.bytes
    }
}

// Whether the view's value is the constant.
pub fn constant_eq<'a>(view: ResolvedView<'a>, constant: TextConstant<'a>) -> bool
    ensures { result ≡ is_eq (byte_order (value view.entry) constant.entry.bytes.now) }
{
    told_eq(view, constant)
}

// The order of the view's value and the constant.
pub fn constant_cmp<'a>(view: ResolvedView<'a>, constant: TextConstant<'a>) -> Ordering
    ensures { result ≡ byte_order (value view.entry) constant.entry.bytes.now }
{
    told_cmp(view, constant)
}
