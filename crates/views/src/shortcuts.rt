// What the words of two views decide of the values that they tell of.
ghost use Rattle.std.specs.Prelude.{◌≡◌, ℕ, ◌≤◌, true, false, List, length, ◌≢◌};
ghost use Rattle.std.specs.declared.cmp.Ordering.TheVariants.{Equal};
ghost use Rattle.std.specs.Ordering.{is_eq};
ghost use Rattle.views.specs.View.{prefix_of, size_of, view_bytes};
ghost use Rattle.views.specs.Window.{byte_order, window};
ghost use Rattle.views.specs.Words.{Whole, Words};

use crate::view::View;
use std::cmp::Ordering;

// Whether sizes and first four bytes are the same. Where they are not, the values differ.
pub(crate) fn same_head(left: View, right: View) -> bool
    ensures one { result ≡ true → left.low ≡ right.low }
    ensures differ { result ≡ false → (xs ys : List ℕ) → Words (view_bytes left) xs → Words (view_bytes right) ys → false ≡ is_eq (byte_order xs ys) }
{
    left.head() == right.head()
}

// Whether the last eight bytes are the same. After equal heads of a size up to 12, that is whether the values are.
pub(crate) fn same_inlined(left: View, right: View) -> bool
    ensures { (xs ys : List ℕ) → Words (view_bytes left) xs → Words (view_bytes right) ys → left.low ≡ right.low → size_of (view_bytes left) ≤ 12 → result ≡ is_eq (byte_order xs ys) }
{
    left.inlined_word() == right.inlined_word()
}

// The order of the first four bytes, zeros past the end. Where these differ, they decide.
pub(crate) fn prefix_cmp(left: View, right: View) -> Ordering
    ensures decides { (result ≢ Equal) → (xs ys : List ℕ) → Words (view_bytes left) xs → Words (view_bytes right) ys → result ≡ byte_order xs ys }
    ensures tie { result ≡ Equal → prefix_of (view_bytes left) ≡ prefix_of (view_bytes right) }
{
    left.order_prefix().cmp(&right.order_prefix())
}

// The order of the last eight bytes. After a tie of the first four, where both views hold the first twelve bytes, a difference decides.
pub(crate) fn tail_cmp(left: View, right: View) -> Ordering
    ensures decides { (result ≢ Equal) → (xs ys : List ℕ) → Whole (view_bytes left) xs → Whole (view_bytes right) ys → prefix_of (view_bytes left) ≡ prefix_of (view_bytes right) → result ≡ byte_order xs ys }
    ensures tie { result ≡ Equal → (xs ys : List ℕ) → Whole (view_bytes left) xs → Whole (view_bytes right) ys → prefix_of (view_bytes left) ≡ prefix_of (view_bytes right) → window 12 xs ≡ window 12 ys }
{
    left.order_tail().cmp(&right.order_tail())
}

// The order of two lengths. After a tie of the first twelve bytes, which are all of the left value, the shorter one is a beginning of the other.
pub(crate) fn size_cmp(left: usize, right: usize) -> Ordering
    ensures { (xs ys : List ℕ) → left ≡ length xs → right ≡ length ys → window 12 xs ≡ window 12 ys → length xs ≤ 12 → result ≡ byte_order xs ys }
{
    left.cmp(&right)
}
