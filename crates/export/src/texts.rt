// Text and binary columns.
ghost use Rattle.std.specs.Prelude.{◌≡◌, length};
ghost use Rattle.rows.specs.Collected.{collected, collection, written};
ghost use Rattle.views.specs.Column.{rows_of};
ghost use Rattle.export.specs.Compared.{right_list};
ghost use Rattle.export.specs.Texts.{compared_texts, text_results};

use crate::comparison::Comparison;
use crate::fault::CompareFault;
use faults::CollectFault;
use parts::part::Part;
use rows::collector::{check_collection, collect_ordering_bits};
use rows::comparator::RowComparator;
use rows::fixed::FixedRow;
use views::column::ViewColumn;
use views::comparator::{Views, ViewsConstant};
use views::constant::TextConstant;

// Collects `again` times more than once, which leaves what once leaves, so that a benchmark can tell a collection from the checks before it.
// Inlined, so that what is known of the columns is known in the loops, which stand once for each comparator.
#[inline(always)]
fn collect_again<'a, C: RowComparator>(
    comparator: &C,
    asked: &Comparison<'a>,
    again: usize,
    out: &mut [u8],
) -> Result<usize, CollectFault>
    ensures answers { result ≡ collection (C.left comparator.now) (C.right comparator.now) asked.now.len (length out.old) }
    ensures writes { out.new ≡ written result (collected (C.left comparator.now) (C.right comparator.now) asked.now.op asked.now.len) out.old }
{
    let mut answer = check_collection(comparator, asked.len, out.len());
    for turn in 0..again.saturating_add(1) {
        answer = collect_ordering_bits(comparator, asked.op, asked.len, out);
    }
    answer
}

// Collects the results of two columns, or of the left one against row 0 of the right: against its value, where it has one.
fn collect_texts<'a>(
    left: ViewColumn<'a>,
    right: ViewColumn<'a>,
    asked: &Comparison<'a>,
    again: usize,
    out: &mut [u8],
) -> Result<usize, CollectFault>
    ensures answers { result ≡ collection (rows_of left.entry) (right_list asked.now.fixed (length (rows_of left.entry)) (rows_of right.entry)) asked.now.len (length out.old) }
    ensures writes { out.new ≡ written result (collected (rows_of left.entry) (right_list asked.now.fixed (length (rows_of left.entry)) (rows_of right.entry)) asked.now.op asked.now.len) out.old }
{
    if asked.fixed {
        match right.get(0) {
            Some(value) => {
                let against = ViewsConstant::new(left, TextConstant::new(value));
                collect_again(&against, asked, again, out)
            }
            None => collect_again(&FixedRow::new(Views::new(left, right)), asked, again, out),
        }
    } else {
        collect_again(&Views::new(left, right), asked, again, out)
    }
}

// Bit i of the output is the operator of the order of left row i and right row i, or of right row 0 where that is fixed.
// Collects `again` times more than once.
// Answers the number of bytes written, or the refusal, which leaves the output as it was.
pub fn compare_views<'a>(
    buffers: &'a [Part],
    asked: &Comparison<'a>,
    again: usize,
    out: &mut [u8],
) -> Result<usize, CompareFault>
    ensures answers { result ≡ compared_texts buffers.now asked.now (length out.old) }
    ensures writes { out.new ≡ written result (text_results buffers.now asked.now) out.old }
{
    let Comparison {
        bytes,
        left,
        right,
        len,
        ..
    } = *asked;
    let left = ViewColumn::new(bytes, buffers, left.start, left.validity, len);
    let right = ViewColumn::new(bytes, buffers, right.start, right.validity, len);
    left.check()?;
    right.check()?;
    Ok(collect_texts(left, right, asked, again, out)?)
}
