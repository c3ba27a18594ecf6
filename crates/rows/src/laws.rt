// Collections over several comparators, whose results the laws of the order tie.
ghost use Rattle.std.specs.Prelude.{◌≡◌, true, length, is_ok};
ghost use Rattle.rows.specs.declared.operator.CompareOperator.{CompareOperator};
ghost use Rattle.rows.specs.Collected.{collected, collection, first_refusal, written};
ghost use Rattle.rows.specs.Operators.{swapped};
ghost use Rattle.rows.specs.Laws.{SameBytes, GoesOn};

use crate::collector::{check_collection, collect_ordering_bits};
use crate::comparator::RowComparator;
use crate::operator::CompareOperator;
use faults::CollectFault;

// Whether both collections can be made: the first refusal, or how many bytes each needs.
fn check_two<C: RowComparator, D: RowComparator>(
    first: &C,
    second: &D,
    len: usize,
    first_room: usize,
    second_room: usize,
) -> Result<usize, CollectFault>
    ensures { result ≡ first_refusal (collection (C.left first.now) (C.right first.now) len first_room) (collection (D.left second.now) (D.right second.now) len second_room) }
{
    check_collection(first, len, first_room)?;
    check_collection(second, len, second_room)
}

// Collects the operator over one comparator and the swapped operator over another.
// Where the second tells the lists of the first exchanged, both outputs get the same bytes. A refusal leaves both as they were.
pub fn collect_both_ways<C: RowComparator, D: RowComparator>(
    forward: &C,
    backward: &D,
    op: CompareOperator,
    len: usize,
    out: &mut [u8],
    back: &mut [u8],
) -> Result<usize, CollectFault>
    ensures answers { result ≡ first_refusal (collection (C.left forward.now) (C.right forward.now) len (length out.old)) (collection (D.left backward.now) (D.right backward.now) len (length back.old)) }
    ensures writes { out.new ≡ written result (collected (C.left forward.now) (C.right forward.now) op len) out.old }
    ensures writes_back { back.new ≡ written result (collected (D.left backward.now) (D.right backward.now) (swapped op) len) back.old }
    ensures law { D.left backward.now ≡ C.right forward.now → D.right backward.now ≡ C.left forward.now → is_ok result ≡ true → SameBytes len out.new back.new }
{
    let size = check_two(forward, backward, len, out.len(), back.len())?;
    let _ = collect_ordering_bits(forward, op, len, out);
    let _ = collect_ordering_bits(backward, op.swap(), len, back);
    Ok(size)
}

// Collects Lte from a first list to a second, from the second to a third, and from the first to the third.
// Where the comparators tell such lists, a bit that is 1 in the first two outputs is 1 in the last. A refusal leaves all as they were.
pub fn collect_chain<C: RowComparator, D: RowComparator, E: RowComparator>(
    first: &C,
    second: &D,
    across: &E,
    len: usize,
    first_out: &mut [u8],
    second_out: &mut [u8],
    across_out: &mut [u8],
) -> Result<usize, CollectFault>
    ensures answers { result ≡ first_refusal (collection (C.left first.now) (C.right first.now) len (length first_out.old)) (first_refusal (collection (D.left second.now) (D.right second.now) len (length second_out.old)) (collection (E.left across.now) (E.right across.now) len (length across_out.old))) }
    ensures writes_first { first_out.new ≡ written result (collected (C.left first.now) (C.right first.now) CompareOperator.Lte len) first_out.old }
    ensures writes_second { second_out.new ≡ written result (collected (D.left second.now) (D.right second.now) CompareOperator.Lte len) second_out.old }
    ensures writes_across { across_out.new ≡ written result (collected (E.left across.now) (E.right across.now) CompareOperator.Lte len) across_out.old }
    ensures law { C.right first.now ≡ D.left second.now → E.left across.now ≡ C.left first.now → E.right across.now ≡ D.right second.now → is_ok result ≡ true → GoesOn len first_out.new second_out.new across_out.new }
{
    check_two(first, second, len, first_out.len(), second_out.len())?;
    let size = check_collection(across, len, across_out.len())?;
    let _ = collect_ordering_bits(first, CompareOperator::Lte, len, first_out);
    let _ = collect_ordering_bits(second, CompareOperator::Lte, len, second_out);
    let _ = collect_ordering_bits(across, CompareOperator::Lte, len, across_out);
    Ok(size)
}
