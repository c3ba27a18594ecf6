// The collection that is asked for, over any comparator.
ghost use Rattle.std.specs.Prelude.{◌≡◌, length};
ghost use Rattle.rows.specs.Collected.{collected, collection, written};
ghost use Rattle.export.specs.Compared.{right_list};

use crate::comparison::Comparison;
use faults::CollectFault;
use rows::collector::collect_ordering_bits;
use rows::comparator::RowComparator;
use rows::fixed::FixedRow;

// Collects the results of two lists, or of the left one against row 0 of the right.
pub(crate) fn collect<'a, C: RowComparator + Drop>(
    comparator: C,
    asked: &Comparison<'a>,
    out: &mut [u8],
) -> Result<usize, CollectFault>
    ensures answers { result ≡ collection (C.left comparator) (right_list asked.now.fixed (length (C.left comparator)) (C.right comparator)) asked.now.len (length out.old) }
    ensures writes { out.new ≡ written result (collected (C.left comparator) (right_list asked.now.fixed (length (C.left comparator)) (C.right comparator)) asked.now.op asked.now.len) out.old }
{
    if asked.fixed {
        collect_ordering_bits(&FixedRow::new(comparator), asked.op, asked.len, out)
    } else {
        collect_ordering_bits(&comparator, asked.op, asked.len, out)
    }
}
