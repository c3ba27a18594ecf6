// Whole values, sixteen bytes at a time.
ghost use Rattle.std.specs.Prelude.{◌≡◌, ◌+◌, ◌<◌, ◌≤◌, length, take, drop};
ghost use Rattle.std.specs.Ordering.{is_eq};
ghost use Rattle.views.specs.Window.{byte_order};

use elements::kind::{ElementKind, U64};
use std::cmp::Ordering;

// The order of the eight bytes from `at` on: as numbers whose first byte is the highest.
fn word_cmp(left: &[u8], right: &[u8], at: usize) -> Ordering
    requires left_has { at + 8 ≤ length left.now }
    requires right_has { at + 8 ≤ length right.now }
    ensures { result ≡ byte_order (take 8 (drop at left.now)) (take 8 (drop at right.now)) }
{
    let left_word = U64::read(left, at).swap_bytes();
    let right_word = U64::read(right, at).swap_bytes();
    left_word.cmp(&right_word)
}

// The same of sixteen bytes.
fn two_words_cmp(left: &[u8], right: &[u8], at: usize) -> Ordering
    requires left_has { at + 16 ≤ length left.now }
    requires right_has { at + 16 ≤ length right.now }
    ensures { result ≡ byte_order (take 16 (drop at left.now)) (take 16 (drop at right.now)) }
{
    word_cmp(left, right, at).then(word_cmp(left, right, at + 8))
}

// The order of the first n bytes, where these are less than sixteen.
fn short_front_cmp(left: &[u8], right: &[u8], n: usize) -> Ordering
    requires left_has { n ≤ length left.now }
    requires right_has { n ≤ length right.now }
    requires short { n < 16 }
    ensures { result ≡ byte_order (take n left.now) (take n right.now) }
{
    if n < 8 {
        return left[0..n].cmp(&right[0..n]);
    }
    word_cmp(left, right, 0).then(word_cmp(left, right, n - 8))
}

// The order of the first n bytes. The last sixteen of them may overlap the ones before.
fn front_cmp(left: &[u8], right: &[u8], n: usize) -> Ordering
    requires left_has { n ≤ length left.now }
    requires right_has { n ≤ length right.now }
    ensures { result ≡ byte_order (take n left.now) (take n right.now) }
{
    if n < 16 {
        return short_front_cmp(left, right, n);
    }
    for k in 0..n.div_ceil(16) - 1 {
        match two_words_cmp(left, right, 16 * k) {
            Ordering::Equal => {}
            order => return order,
        }
    }
    two_words_cmp(left, right, n - 16)
}

// Whether two values are the same.
pub(crate) fn same_bytes(left: &[u8], right: &[u8]) -> bool
    ensures { result ≡ is_eq (byte_order left.now right.now) }
{
    left.len() == right.len() && front_cmp(left, right, left.len()).is_eq()
}

// The order of two values: by the first difference, and a proper beginning is less.
pub(crate) fn order_bytes(left: &[u8], right: &[u8]) -> Ordering
    ensures { result ≡ byte_order left.now right.now }
{
    let sizes = left.len().cmp(&right.len());
    front_cmp(left, right, left.len().min(right.len())).then(sizes)
}
