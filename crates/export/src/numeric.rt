// Number columns of one kind.
ghost use Rattle.std.specs.Prelude.{◌≡◌, length};
ghost use Rattle.rows.specs.Collected.{written};
ghost use Rattle.export.specs.Compared.{compared, results};

use crate::collect::collect;
use crate::comparison::Comparison;
use crate::fault::CompareFault;
use elements::kind::{ElementKind, F16, F32, F64, I8, I16, I32, I64, U8, U16, U32, U64};
use elements::ptype::PType;
use numbers::column::NumberColumn;
use numbers::numbers::Numbers;

fn compare_kind<'a, K: ElementKind>(
    asked: &Comparison<'a>,
    out: &mut [u8],
) -> Result<usize, CompareFault>
    ensures answers { result ≡ compared K.PTYPE asked.now (length out.old) }
    ensures writes { out.new ≡ written result (results K.PTYPE asked.now) out.old }
{
    let Comparison {
        bytes,
        left,
        right,
        len,
        ..
    } = *asked;
    let left = NumberColumn::<K>::new(bytes, left.start, left.validity, len)?;
    let right = NumberColumn::<K>::new(bytes, right.start, right.validity, len)?;
    Ok(collect(Numbers::new(left, right), asked, out)?)
}

// Bit i of the output is the operator of the order of left row i and right row i, or of right row 0 where that is fixed.
// Answers the number of bytes written, or the refusal, which leaves the output as it was.
// Inlined, so that what a caller knows of the validities is known in the loops.
#[inline(always)]
pub fn compare_numbers<'a>(
    kind: PType,
    asked: &Comparison<'a>,
    out: &mut [u8],
) -> Result<usize, CompareFault>
    ensures answers { result ≡ compared kind asked.now (length out.old) }
    ensures writes { out.new ≡ written result (results kind asked.now) out.old }
{
    match kind {
        PType::U8 => compare_kind::<U8>(asked, out),
        PType::U16 => compare_kind::<U16>(asked, out),
        PType::U32 => compare_kind::<U32>(asked, out),
        PType::U64 => compare_kind::<U64>(asked, out),
        PType::I8 => compare_kind::<I8>(asked, out),
        PType::I16 => compare_kind::<I16>(asked, out),
        PType::I32 => compare_kind::<I32>(asked, out),
        PType::I64 => compare_kind::<I64>(asked, out),
        PType::F16 => compare_kind::<F16>(asked, out),
        PType::F32 => compare_kind::<F32>(asked, out),
        PType::F64 => compare_kind::<F64>(asked, out),
    }
}
