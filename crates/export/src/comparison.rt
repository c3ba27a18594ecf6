// What is asked: two columns of one data area, and how their rows are compared.
use parts::validity::Validity;
use rows::operator::CompareOperator;

// Where the elements or the views of a column begin, and which rows are valid.
#[derive(Clone, Copy, PartialEq, Eq, Debug)]
pub struct Side {
    pub start: usize,
    pub validity: Validity,
}

#[derive(Clone, Copy)]
pub struct Comparison<'a> {
    // The data area.
    pub bytes: &'a [u8],
    pub left: Side,
    pub right: Side,
    // How many rows each column has.
    pub len: usize,
    pub op: CompareOperator,
    // Whether each left row meets right row 0, and not the right row of its number.
    pub fixed: bool,
}
