// Views against what words tell of: by the words where those decide, and else by the whole values.
ghost use Rattle.std.specs.Prelude.{◌≡◌, List};
ghost use Rattle.std.specs.Ordering.{is_eq};
ghost use Rattle.views.specs.Resolved.{value};
ghost use Rattle.views.specs.Window.{byte_order};
ghost use Rattle.views.specs.View.{view_bytes};

use crate::bytes::{order_bytes, same_bytes};
use crate::resolved::ResolvedView;
use crate::shortcuts::{prefix_cmp, same_head, same_inlined, size_cmp, tail_cmp};
use crate::told::Told;
use std::cmp::Ordering;

// Whether two values are the same.
pub(crate) fn told_eq<'a, R: Told<'a>>(left: ResolvedView<'a>, right: R) -> bool
    ensures { result ≡ is_eq (byte_order (value left.entry) (R.told right)) }
{
    let (l, r) = (left.words(), right.words());
    if !same_head(l, r) {
        return false;
    }
    if l.is_inlined() {
        // Sizes are equal and at most 12: the whole values stand in the words.
        return same_inlined(l, r);
    }
    same_bytes(left.value(), right.value())
}

// The order of two values.
pub(crate) fn told_cmp<'a, R: Told<'a>>(left: ResolvedView<'a>, right: R) -> Ordering
    ensures { result ≡ byte_order (value left.entry) (R.told right) }
{
    let (l, r) = (left.words(), right.words());
    match prefix_cmp(l, r) {
        Ordering::Equal => {}
        order => return order,
    }
    if l.is_inlined() && right.has_front() {
        // A tie of the zero-padded bytes means that one value is a beginning of the other.
        match tail_cmp(l, r) {
            Ordering::Equal => return size_cmp(left.len(), right.value().len()),
            order => return order,
        }
    }
    order_bytes(left.value(), right.value())
}

// Whether two values are the same.
pub fn view_eq<'a>(left: ResolvedView<'a>, right: ResolvedView<'a>) -> bool
    ensures { result ≡ is_eq (byte_order (value left.entry) (value right.entry)) }
{
    told_eq(left, right)
}

// The order of two values.
pub fn view_cmp<'a>(left: ResolvedView<'a>, right: ResolvedView<'a>) -> Ordering
    ensures { result ≡ byte_order (value left.entry) (value right.entry) }
{
    told_cmp(left, right)
}
