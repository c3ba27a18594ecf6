// The names of an area against one name, and against those that stand a distance behind them.
ghost use Rattle.std.specs.Prelude.{◌≡◌, ◌-◌, ◌*◌, ◌≤◌, drop, replicate, IfOk};
ghost use Rattle.rows.specs.Collected.{collected};
ghost use Rattle.rows.specs.Row.{text};
ghost use Rattle.views.specs.Column.{rows_of};
ghost use Rattle.duty.specs.Names.{area_texts};

use crate::checks::DutyFault;
use crate::names::NameArea;
use crate::output::{collect_rows, output_for};
use faults::ColumnFault;
use parts::validity::Validity;
use rows::operator::CompareOperator;
use std::alloc::Global;
use views::column::ViewColumn;
use views::comparator::{Views, ViewsConstant};
use views::constant::TextConstant;

// The column of the last so many names of an area, whose views begin at byte `start`.
fn name_column<'a>(
    names: &'a NameArea,
    start: usize,
    len: usize,
) -> Result<ViewColumn<'a>, ColumnFault>
    requires some { len ≤ names.now.len }
    requires last { start ≡ 16 * (names.now.len - len) }
    ensures { IfOk result (λ c. rows_of c ≡ drop (names.now.len - len) (area_texts names.now)) }
{
    let column = ViewColumn::new(
        &names.bytes,
        &names.buffers,
        start,
        Validity::NonNullable,
        len,
    );
    column.check()?;
    Ok(column)
}

// Bit i is the operator of the order of name i and the one name.
pub fn compare_name(
    heap: Global,
    names: &NameArea,
    name: &[u8],
    op: CompareOperator,
) -> Result<Vec<u8>, DutyFault>
    ensures { IfOk result (λ v. v.items ≡ collected (area_texts names.now) (replicate names.now.len (text name.now)) op names.now.len) }
{
    let out = output_for(heap, names.len)?;
    let column = name_column(names, 0, names.len)?;
    let comparator = ViewsConstant::new(column, TextConstant::new(name));
    collect_rows(&comparator, op, names.len, out)
}

// Bit i is the operator of the order of name i and the name that stands the distance behind it.
pub fn compare_names_apart(
    heap: Global,
    names: &NameArea,
    distance: usize,
    op: CompareOperator,
) -> Result<Vec<u8>, DutyFault>
    ensures { IfOk result (λ v. v.items ≡ collected (area_texts names.now) (drop distance (area_texts names.now)) op (names.now.len - distance)) }
{
    let Some(pairs) = names.len.checked_sub(distance) else {
        return Ok(Vec::new(heap));
    };
    let out = output_for(heap, pairs)?;
    let start = distance.checked_mul(16).ok_or(ColumnFault::Range)?;
    let left = name_column(names, 0, names.len)?;
    let right = name_column(names, start, pairs)?;
    collect_rows(&Views::new(left, right), op, pairs, out)
}
