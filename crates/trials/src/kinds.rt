// Operators, kinds, keys and decimals.
use elements::decimal::DecimalType;
use elements::kind::*;
use elements::ptype::PType;
use faults::ColumnFault;
use rows::operator::CompareOperator::{Eq, Gt, Gte, Lt, Lte, NotEq};
use std::cmp::Ordering;
use std::test::Fail;

#[test]
fn operators(rt: HostRuntime) {
    let table = [
        (Eq, false, true, false, NotEq, Eq),
        (NotEq, true, false, true, Eq, NotEq),
        (Gt, false, false, true, Lte, Lt),
        (Gte, false, true, true, Lt, Lte),
        (Lt, true, false, false, Gte, Gt),
        (Lte, true, true, false, Gt, Gte),
    ];
    for (op, less, equal, greater, inverse, swap) in table {
        assert_eq!(rt; op.holds(Ordering::Less), less);
        assert_eq!(rt; op.holds(Ordering::Equal), equal);
        assert_eq!(rt; op.holds(Ordering::Greater), greater);
        assert_eq!(rt; op.inverse(), inverse);
        assert_eq!(rt; op.swap(), swap);
    }
}

#[test]
fn codes(rt: HostRuntime) -> Result<(), Fail> {
    for (code, width) in [
        (0u64, 1usize),
        (1, 2),
        (2, 4),
        (3, 8),
        (4, 1),
        (5, 2),
        (6, 4),
        (7, 8),
        (8, 2),
        (9, 4),
        (10, 8),
    ] {
        let ptype = PType::try_from(code).map_err(|_| Fail::new("a code below 11"))?;
        assert_eq!(rt; u64::from(u8::from(ptype)), code);
        assert_eq!(rt; ptype.byte_width(), width);
    }
    for code in [11u64, 255, 256, u64::MAX] {
        let Err(fault) = PType::try_from(code) else {
            return Err(Fail::new("a code above 10"));
        };
        assert_eq!(rt; fault.number(), 3);
    }
    Ok(())
}

// Around zero and at both ends of each kind.
#[test]
fn keys(rt: HostRuntime) {
    let table = [
        (PType::U8, 255u64, 255i128),
        (PType::U64, u64::MAX, 18_446_744_073_709_551_615),
        (PType::I8, 0x7f, 127),
        (PType::I8, 0x80, -128),
        (PType::I8, 0xff, -1),
        (PType::I16, 0x8000, -32_768),
        (PType::I32, 0x8000_0000, -2_147_483_648),
        (
            PType::I64,
            0x8000_0000_0000_0000,
            -9_223_372_036_854_775_808,
        ),
        (PType::I64, 0x7fff_ffff_ffff_ffff, 9_223_372_036_854_775_807),
        (PType::F16, 0x0000, 0),
        (PType::F16, 0x8000, -1),
        (PType::F16, 0xffff, -32_768),
        (PType::F16, 0x7fff, 32_767),
        (PType::F32, 0x8000_0000, -1),
        (PType::F32, 0x7fc0_0000, 2_143_289_344),
        (PType::F32, 0x7f80_0000, 2_139_095_040),
        (PType::F32, 0xffff_ffff, -2_147_483_648),
        (PType::F64, 0x8000_0000_0000_0000, -1),
        (
            PType::F64,
            0xffff_ffff_ffff_ffff,
            -9_223_372_036_854_775_808,
        ),
    ];
    for (ptype, pattern, key) in table {
        assert_eq!(rt; ptype.key(pattern), key);
    }
    assert_eq!(rt;
        F32::total_compare(0xc000_0000, 0xbf80_0000),
        Ordering::Less
    );
    assert_eq!(rt; U16::total_compare(7, 7), Ordering::Equal);
    assert_eq!(rt; kind_law::<I32>(), PType::I32);
}

#[test]
fn decimals(rt: HostRuntime) {
    for (precision, scale, width, granted) in [
        (1u64, -128i64, 1u64, true),
        (18, 127, 8, true),
        (0, 0, 8, false),
        (19, 0, 8, false),
        (9, -129, 4, false),
        (9, 128, 4, false),
        (9, 0, 3, false),
        (9, 0, 16, false),
        (u64::MAX, i64::MIN, u64::MAX, false),
    ] {
        match DecimalType::new(precision, scale, width) {
            Ok(decimal) => {
                assert!(rt; granted);
                assert_eq!(rt; decimal.precision() as u64, precision);
                assert_eq!(rt; decimal.scale() as i64, scale);
                assert_eq!(rt; decimal.stored().byte_width() as u64, width);
            }
            Err(fault) => {
                assert!(rt; !granted);
                assert_eq!(rt; fault.number(), 3);
            }
        }
    }
}
