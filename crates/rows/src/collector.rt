// The collector: an operator's results over the rows of a comparator, as bits.
ghost use Rattle.std.specs.Prelude.{◌≡◌, ℕ, ◌+◌, ◌*◌, ◌^◌, ◌<◌, ◌≤◌, ◌++◌, length, drop};
ghost use Rattle.rows.specs.Bits.{bits, bytes_for};
ghost use Rattle.std.specs.Ordering.{is_eq};
ghost use Rattle.rows.specs.Row.{order, row};
ghost use Rattle.rows.specs.Collected.{result_at, collected, collection, written};

use crate::comparator::RowComparator;
use crate::operator::CompareOperator;
use crate::packing::pack;
use faults::CollectFault;

// Whether left row i and right row i are equal.
fn equal_rows<C: RowComparator>(comparator: &C, i: usize) -> bool
    ensures { result ≡ is_eq (order (row (C.left comparator.now) i) (row (C.right comparator.now) i)) }
{
    comparator
        .same(i)
        .unwrap_or_else(|| comparator.compare(i, i).is_eq())
}

// Whether the operator holds of left row i and right row i.
fn row_result<C: RowComparator>(comparator: &C, op: CompareOperator, i: usize) -> bool
    ensures { result ≡ result_at (C.left comparator.now) (C.right comparator.now) op i }
{
    match op {
        CompareOperator::Eq => equal_rows(comparator, i),
        CompareOperator::NotEq => !equal_rows(comparator, i),
        op => op.holds(comparator.compare(i, i)),
    }
}

// The results of up to eight rows in a byte, row by row.
fn pack_rows<C: RowComparator>(
    comparator: &C,
    op: CompareOperator,
    start: usize,
    count: usize,
) -> u8
    requires eight { count ≤ 8 }
    requires in_range { start + count < 2 ^ 64 }
    ensures { result ≡ bits (result_at (C.left comparator.now) (C.right comparator.now) op) start count }
{
    pack(|k| row_result(comparator, op, start + k), count)
}

// Byte k of the results, where all of its eight rows are there.
#[inline(always)]
fn whole_byte<C: RowComparator>(comparator: &C, op: CompareOperator, k: usize) -> u8
    requires left_has { 8 * k + 8 ≤ length (C.left comparator.now) }
    requires right_has { 8 * k + 8 ≤ length (C.right comparator.now) }
    requires in_range { 8 * k + 8 < 2 ^ 64 }
    ensures { result ≡ bits (result_at (C.left comparator.now) (C.right comparator.now) op) (8 * k) 8 }
{
    comparator
        .whole(op, k)
        .unwrap_or_else(|| pack_rows(comparator, op, 8 * k, 8))
}

// Writes the results of the first `len` rows. Inlined, so that each operator has a loop of its own.
#[inline(always)]
fn write_bits<C: RowComparator>(comparator: &C, op: CompareOperator, len: usize, out: &mut [u8])
    requires left_has { len ≤ length (C.left comparator.now) }
    requires right_has { len ≤ length (C.right comparator.now) }
    requires room { bytes_for len ≤ length out.old }
    ensures { out.new ≡ collected (C.left comparator.now) (C.right comparator.now) op len ++ drop (bytes_for len) out.old }
{
    let full = len / 8;
    for (k, byte) in out[..full].iter_mut().enumerate() {
        *byte = whole_byte(comparator, op, k);
    }
    if len % 8 > 0 {
        out[full] = pack_rows(comparator, op, 8 * full, len % 8);
    }
}

// Whether `len` rows of the comparator can be collected into so many bytes: how many are needed, or the refusal.
pub fn check_collection<C: RowComparator>(
    comparator: &C,
    len: usize,
    room: usize,
) -> Result<usize, CollectFault>
    ensures { result ≡ collection (C.left comparator.now) (C.right comparator.now) len room }
{
    if len > comparator.left_len() || len > comparator.right_len() {
        return Err(CollectFault::Length);
    }
    let size = len.div_ceil(8);
    if room < size {
        return Err(CollectFault::Output);
    }
    Ok(size)
}

// Writes bit i as the operator of the order of left row i and right row i, for each row below `len`.
// Spare bits are zero and later bytes stay. Answers the number of bytes written.
pub fn collect_ordering_bits<C: RowComparator>(
    comparator: &C,
    op: CompareOperator,
    len: usize,
    out: &mut [u8],
) -> Result<usize, CollectFault>
    ensures answers { result ≡ collection (C.left comparator.now) (C.right comparator.now) len (length out.old) }
    ensures writes { out.new ≡ written result (collected (C.left comparator.now) (C.right comparator.now) op len) out.old }
{
    let size = check_collection(comparator, len, out.len())?;
    match op {
        CompareOperator::Eq => write_bits(comparator, CompareOperator::Eq, len, out),
        CompareOperator::NotEq => write_bits(comparator, CompareOperator::NotEq, len, out),
        CompareOperator::Gt => write_bits(comparator, CompareOperator::Gt, len, out),
        CompareOperator::Gte => write_bits(comparator, CompareOperator::Gte, len, out),
        CompareOperator::Lt => write_bits(comparator, CompareOperator::Lt, len, out),
        CompareOperator::Lte => write_bits(comparator, CompareOperator::Lte, len, out),
    }
    Ok(size)
}
