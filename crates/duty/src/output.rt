// Results in bytes of their own.
ghost use Rattle.std.specs.Prelude.{◌≡◌, IfOk};
ghost use Rattle.rows.specs.Bits.{bytes_for};
ghost use Rattle.rows.specs.Collected.{collected};

use crate::checks::DutyFault;
use rows::collector::collect_ordering_bits;
use rows::comparator::RowComparator;
use rows::operator::CompareOperator;
use std::alloc::{AllocError, Global};

// The bytes that the results of `len` rows take. They are asked for before a column is looked at.
pub(crate) fn output_for(heap: Global, len: usize) -> Result<Vec<u8>, AllocError>
    ensures { IfOk result (λ v. v.len ≡ bytes_for len) }
{
    vec![in heap; 0u8; len.div_ceil(8)]
}

// The results of the first `len` rows, in an output for so many and nothing else.
pub(crate) fn collect_rows<C: RowComparator>(
    comparator: &C,
    op: CompareOperator,
    len: usize,
    mut out: Vec<u8>,
) -> Result<Vec<u8>, DutyFault>
    requires { out.len ≡ bytes_for len }
    ensures { IfOk result (λ v. v.items ≡ collected (C.left comparator.now) (C.right comparator.now) op len) }
{
    collect_ordering_bits(comparator, op, len, out.as_mut_slice())?;
    Ok(out)
}
