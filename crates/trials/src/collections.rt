// Collections over number columns.
use elements::kind::*;
use faults::{CollectFault, ColumnFault};
use numbers::column::NumberColumn;
use numbers::numbers::Numbers;
use parts::validity::Validity;
use rows::collector::collect_ordering_bits;
use rows::comparator::RowComparator;
use rows::fixed::FixedRow;
use rows::laws::collect_chain;
use rows::operator::CompareOperator;
use std::process::Abort;
use std::test::Fail;

// Left from byte 0, right from byte 24, and two bitmaps behind them.
const DATA: [u8; 54] = [
    0,
    1,
    2,
    3,
    4,
    5,
    6,
    7,
    8,
    9,
    10,
    11,
    12,
    13,
    14,
    15,
    255,
    128,
    127,
    0,
    1,
    2,
    3,
    4, //
    0,
    2,
    1,
    3,
    0,
    5,
    7,
    6,
    8,
    0,
    10,
    12,
    11,
    13,
    0,
    15,
    127,
    129,
    128,
    0,
    9,
    2,
    3,
    5, //
    0b1101_0111,
    0b0111_1111,
    0b1010_1010, //
    0b1111_1011,
    0b1110_1111,
    0b0110_1110,
];

const OPERATORS: [CompareOperator; 6] = [
    CompareOperator::Eq,
    CompareOperator::NotEq,
    CompareOperator::Gt,
    CompareOperator::Gte,
    CompareOperator::Lt,
    CompareOperator::Lte,
];

fn column<K: ElementKind>(
    start: usize,
    validity: Validity,
    len: usize,
) -> Result<NumberColumn<'static, K>, Fail> {
    NumberColumn::new(&DATA, start, validity, len).map_err(|_| Fail::new("the column is refused"))
}

// Each bit is what the comparator says of that row, the spare bits are zero, and the last bytes stay.
fn same_by_row<C: RowComparator>(rt: &impl Abort, comparator: &C, len: usize) -> Result<(), Fail> {
    for op in OPERATORS {
        let mut out = [0xaau8; 5];
        let written = collect_ordering_bits(comparator, op, len, &mut out).map_err(|_| Fail::new(
            "the collection is refused",
        ))?;
        assert_eq!(rt; written, len.div_ceil(8));
        for i in 0..40usize {
            let bit = (out[i / 8] >> (i % 8)) % 2 == 1;
            if i < len {
                assert_eq!(rt; bit, op.holds(comparator.compare(i, i)));
            } else if i / 8 < len.div_ceil(8) {
                assert!(rt; !bit);
            } else {
                assert_eq!(rt; out[i / 8], 0xaa);
            }
        }
    }
    Ok(())
}

// Lengths around the multiples of eight, with and without nulls.
#[test]
fn lengths(rt: HostRuntime) -> Result<(), Fail> {
    for len in [0usize, 1, 7, 8, 9, 15, 16, 17, 23, 24] {
        let plain = Numbers::new(
            column::<U8>(0, Validity::NonNullable, len)?,
            column::<U8>(24, Validity::AllValid, len)?,
        );
        same_by_row(&rt, &plain, len)?;
        let nulls = Numbers::new(
            column::<I8>(0, Validity::Bitmap(48), len)?,
            column::<I8>(24, Validity::Bitmap(51), len)?,
        );
        same_by_row(&rt, &nulls, len)?;
        same_by_row(&rt, &FixedRow::new(nulls), len)?;
    }
    Ok(())
}

// Two kinds meet by their keys, and so do two widths of a decimal.
#[test]
fn kinds_meet(rt: HostRuntime) -> Result<(), Fail> {
    let mixed = Numbers::new(
        column::<U8>(0, Validity::Bitmap(48), 6)?,
        column::<F32>(24, Validity::NonNullable, 6)?,
    );
    same_by_row(&rt, &mixed, 6)?;
    let widths = Numbers::new(
        column::<I16>(0, Validity::NonNullable, 12)?,
        column::<I8>(24, Validity::Bitmap(51), 12)?,
    );
    same_by_row(&rt, &widths, 12)?;
    let none = Numbers::new(
        column::<F16>(0, Validity::AllInvalid, 12)?,
        column::<F16>(24, Validity::NonNullable, 12)?,
    );
    same_by_row(&rt, &none, 12)?;
    same_by_row(&rt, &FixedRow::new(none), 12)
}

#[test]
fn columns_refused(rt: HostRuntime) {
    for (start, validity, len, number) in [
        (0usize, Validity::NonNullable, 16_777_217usize, 2u8),
        (usize::MAX, Validity::NonNullable, 1, 1),
        (47, Validity::NonNullable, 4, 1),
        (55, Validity::NonNullable, 0, 1),
        (0, Validity::Bitmap(53), 9, 1),
        (0, Validity::Bitmap(usize::MAX), 1, 1),
        (46, Validity::NonNullable, 4, 0),
        (54, Validity::NonNullable, 0, 0),
        (0, Validity::Bitmap(52), 9, 0),
    ] {
        match NumberColumn::<U16>::new(&DATA, start, validity, len) {
            Ok(column) => {
                assert_eq!(rt; number, 0);
                assert_eq!(rt; column.rows(), len);
            }
            Err(fault) => assert_eq!(rt; fault.number(), number),
        }
    }
}

#[test]
fn collections_refused(rt: HostRuntime) -> Result<(), Fail> {
    let numbers = Numbers::new(
        column::<U8>(0, Validity::NonNullable, 10)?,
        column::<U8>(24, Validity::NonNullable, 9)?,
    );
    for (len, room, number) in [
        (10usize, 2usize, 8u8),
        (10, 0, 8),
        (9, 1, 9),
        (9, 2, 0),
        (0, 0, 0),
    ] {
        let mut out = [0x55u8; 2];
        let answer = collect_ordering_bits(
            &numbers,
            CompareOperator::Lt,
            len,
            &mut out[0..room.min(2)],
        ).map_or_else(|fault| fault.number(), |_| 0);
        assert_eq!(rt; answer, number);
        if answer > 0 {
            assert!(rt; out[0] == 0x55 && out[1] == 0x55);
        }
    }
    Ok(())
}

#[test]
fn lte_goes_on(rt: HostRuntime) -> Result<(), Fail> {
    let first = Numbers::new(
        column::<U8>(0, Validity::Bitmap(48), 20)?,
        column::<I8>(24, Validity::NonNullable, 20)?,
    );
    let second = Numbers::new(
        column::<I8>(24, Validity::NonNullable, 20)?,
        column::<U8>(4, Validity::Bitmap(51), 20)?,
    );
    let across = Numbers::new(
        column::<U8>(0, Validity::Bitmap(48), 20)?,
        column::<U8>(4, Validity::Bitmap(51), 20)?,
    );
    let mut a = [0u8; 3];
    let mut b = [0u8; 3];
    let mut c = [0u8; 3];
    collect_chain(&first, &second, &across, 20, &mut a, &mut b, &mut c).map_err(|_| Fail::new(
        "the chain is refused",
    ))?;
    for ((a, b), c) in a.iter().zip(&b).zip(&c) {
        assert_eq!(rt; *a & *b & !*c, 0);
    }
    Ok(())
}
