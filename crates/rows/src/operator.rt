// The comparison operators.
ghost use Rattle.std.specs.Prelude.{◌≡◌};
ghost use Rattle.rows.specs.declared.operator.CompareOperator.{CompareOperator};
ghost use Rattle.rows.specs.Operators.{holds, inverted, swapped, Complements, Mirrors};

use std::cmp::Ordering;

#[derive(Clone, Copy, PartialEq, Eq, Debug)]
pub enum CompareOperator {
    Eq,
    NotEq,
    Gt,
    Gte,
    Lt,
    Lte,
}

impl CompareOperator {
    // The operator that holds exactly where this one does not.
    pub fn inverse(self) -> CompareOperator
        ensures value { result ≡ inverted self }
        ensures law { Complements self result }
    {
        match self {
            CompareOperator::Eq => CompareOperator::NotEq,
            CompareOperator::NotEq => CompareOperator::Eq,
            CompareOperator::Gt => CompareOperator::Lte,
            CompareOperator::Gte => CompareOperator::Lt,
            CompareOperator::Lt => CompareOperator::Gte,
            CompareOperator::Lte => CompareOperator::Gt,
        }
    }

    // The operator for the sides exchanged.
    pub fn swap(self) -> CompareOperator
        ensures value { result ≡ swapped self }
        ensures law { Mirrors self result }
    {
        match self {
            CompareOperator::Eq => CompareOperator::Eq,
            CompareOperator::NotEq => CompareOperator::NotEq,
            CompareOperator::Gt => CompareOperator::Lt,
            CompareOperator::Gte => CompareOperator::Lte,
            CompareOperator::Lt => CompareOperator::Gt,
            CompareOperator::Lte => CompareOperator::Gte,
        }
    }

    // Whether the operator holds of two values in this order.
    pub fn holds(self, order: Ordering) -> bool
        ensures { result ≡ holds self order }
    {
        match self {
            CompareOperator::Eq => order.is_eq(),
            CompareOperator::NotEq => order.is_ne(),
            CompareOperator::Gt => order.is_gt(),
            CompareOperator::Gte => order.is_ge(),
            CompareOperator::Lt => order.is_lt(),
            CompareOperator::Lte => order.is_le(),
        }
    }
}
