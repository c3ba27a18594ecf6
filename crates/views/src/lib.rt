// Byte views: sixteen bytes that hold a short text or binary value, or say where a long one stands.
#![tactic(auto)]

ghost use Rattle.views.specs.Window.{TextOrder, Windows};

pub mod against;
mod bytes;
pub mod check;
pub mod column;
pub mod comparator;
pub mod compare;
pub mod constant;
pub mod resolved;
mod shortcuts;
pub mod texts;
pub mod told;
pub mod values;
pub mod view;

// Texts go bytewise: by the first difference, and a proper beginning is less.
pub fn text_order_stands()
    ensures { TextOrder }
{}

// The first bytes of texts, zeros past the end, as numbers: they are ordered as the bytes, a difference decides, and after a tie the lengths do where one text fits.
pub fn windows_stand()
    ensures { Windows }
{}
