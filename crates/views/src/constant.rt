// A constant value, with the words that its view would have.
ghost use Rattle.std.specs.Prelude.{◌≡◌};
ghost use Rattle.views.specs.Image.{image_of};
ghost use Rattle.views.specs.View.{view_bytes};

use crate::view::View;

#[derive(Clone, Copy)]
pub struct TextConstant<'a> {
    pub(crate) bytes: &'a [u8],
    pub(crate) image: View,
    ghost told: { view_bytes image ≡ image_of bytes.now },
}
