// The comparisons that the duty list leans on.
ghost use Rattle.std.specs.Prelude.{◌≡◌, length, replicate, pos, IfOk};
ghost use Rattle.numbers.specs.Column.{rows_of};
ghost use Rattle.rows.specs.Collected.{collected};
ghost use Rattle.rows.specs.Row.{number};
ghost use Rattle.duty.specs.Counts.{count_rows, area_rows};

use crate::area::count_area;
use crate::output::{collect_rows, output_for};
use elements::kind::U64;
use faults::{CollectFault, ColumnFault};
use numbers::column::NumberColumn;
use numbers::numbers::Numbers;
use parts::validity::Validity;
use rows::fixed::FixedRow;
use rows::laws::collect_both_ways;
use rows::operator::CompareOperator;
use std::alloc::{AllocError, AllocFailed, Global};
use thiserror::Error;

// Why a comparison of counts is not made.
#[derive(Debug, Drop, Error)]
pub enum DutyFault {
    #[error("no memory is left")]
    Memory,
    #[error("a column is refused: {0:?}")]
    Column(#[from] ColumnFault),
    #[error("a collection is refused: {0:?}")]
    Collect(#[from] CollectFault),
}

impl From<AllocError> for DutyFault {
    fn from(_e: AllocError) -> DutyFault {
        DutyFault::Memory
    }
}

impl<T: Drop> From<AllocFailed<T>> for DutyFault {
    fn from(_e: AllocFailed<T>) -> DutyFault {
        DutyFault::Memory
    }
}

// The column of counts in an area.
fn count_column<'a>(area: &'a [u8], len: usize) -> Result<NumberColumn<'a, U64>, ColumnFault>
    ensures { IfOk result (λ c. rows_of c ≡ area_rows area.now len) }
{
    let bitmap = len.checked_mul(8).ok_or(ColumnFault::Rows)?;
    NumberColumn::new(area, 0, Validity::Bitmap(bitmap), len)
}

// Bit i is the operator of the order of the two counts i, a missing one lowest.
pub fn compare_counts(
    heap: Global,
    left: &[Option<u64>],
    right: &[Option<u64>],
    op: CompareOperator,
) -> Result<Vec<u8>, DutyFault>
    ensures { IfOk result (λ v. v.items ≡ collected (count_rows left.now) (count_rows right.now) op (length left.now)) }
{
    let left_area = count_area(heap, left)?;
    let right_area = count_area(heap, right)?;
    let out = output_for(heap, left.len())?;
    let left_column = count_column(&left_area, left.len())?;
    let right_column = count_column(&right_area, right.len())?;
    let numbers = Numbers::new(left_column, right_column);
    collect_rows(&numbers, op, left.len(), out)
}

// What a threshold gives on either side of the sign.
#[derive(Drop)]
pub struct BothWays {
    // Each count, the operator, the threshold.
    pub after: Vec<u8>,
    // The threshold, the swapped operator, each count.
    pub before: Vec<u8>,
}

// An area of so many rows, each with the threshold.
fn threshold_area(heap: Global, threshold: u64, len: usize) -> Result<Vec<u8>, AllocError>
    ensures { IfOk result (λ v. area_rows v.items len ≡ replicate len (number (pos threshold))) }
{
    let thresholds = vec![in heap; Some(threshold); len]?;
    count_area(heap, &thresholds)
}

// Each count against a threshold that stands after the sign, and before it.
pub fn compare_threshold(
    heap: Global,
    counts: &[Option<u64>],
    threshold: u64,
    op: CompareOperator,
) -> Result<BothWays, DutyFault>
    ensures { IfOk result (λ v. (v.after.items ≡ collected (count_rows counts.now) (replicate (length counts.now) (number (pos threshold))) op (length counts.now)) × (v.before.items ≡ v.after.items)) }
{
    let len = counts.len();
    let area = count_area(heap, counts)?;
    let one = threshold_area(heap, threshold, 1)?;
    let many = threshold_area(heap, threshold, len)?;
    let mut after = output_for(heap, len)?;
    let mut before = output_for(heap, len)?;
    let after_sign = FixedRow::new(Numbers::new(count_column(&area, len)?, count_column(&one, 1)?));
    let before_sign = Numbers::new(count_column(&many, len)?, count_column(&area, len)?);
    collect_both_ways(&after_sign, &before_sign, op, len, &mut after, &mut before)?;
    Ok(BothWays { after, before })
}
