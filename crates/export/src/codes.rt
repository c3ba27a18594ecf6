// What a comparison takes as plain numbers, and what it is answered.
ghost use Rattle.std.specs.Prelude.{◌≡◌};
ghost use Rattle.export.specs.Exported.{operator_of, validity_of};
ghost use Rattle.export.specs.Faults.{told};

use crate::comparison::Side;
use crate::fault::CompareFault;
use parts::validity::Validity;
use rows::operator::CompareOperator;

// The operators by their codes: Eq, NotEq, Gt, Gte, Lt and Lte are 0 to 5.
pub(crate) fn operator(code: u8) -> CompareOperator
    ensures { result ≡ operator_of code }
{
    match code {
        0 => CompareOperator::Eq,
        1 => CompareOperator::NotEq,
        2 => CompareOperator::Gt,
        3 => CompareOperator::Gte,
        4 => CompareOperator::Lt,
        _ => CompareOperator::Lte,
    }
}

// A column that begins at `start`, and where `nullable` is set has a bitmap.
pub(crate) fn side(start: usize, nullable: bool, bitmap: usize) -> Side
    ensures start { result.start ≡ start }
    ensures validity { result.validity ≡ validity_of nullable bitmap }
{
    let validity = Validity::from(nullable.then_some(bitmap));
    Side { start, validity }
}

// 0, or the number of the refusal.
pub(crate) fn answer(compared: Result<usize, CompareFault>) -> u8
    ensures { result ≡ told compared }
{
    match compared {
        Ok(_) => 0,
        Err(fault) => fault.number(),
    }
}
