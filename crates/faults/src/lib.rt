// The faults that the calls of this library answer with. Each has its refusal number.
#![tactic(auto)]

ghost use Rattle.std.specs.Prelude.{◌≡◌};
ghost use Rattle.faults.specs.Numbers.{collect_number, view_cause, at_row, column_number, column_refusal};

// Why a collection is refused.
#[derive(Clone, Copy, PartialEq, Eq, Debug)]
pub enum CollectFault {
    // The length is above one that the comparator tells.
    Length,
    // The output is shorter than the results need.
    Output,
}

impl CollectFault {
    pub fn number(self) -> u8
        ensures { result ≡ collect_number self }
    {
        match self {
            CollectFault::Length => 8,
            CollectFault::Output => 9,
        }
    }
}

// Why a view is malformed. The causes stand in the order in which they are looked for.
#[derive(Clone, Copy, PartialEq, Eq, Debug)]
pub enum ViewFault {
    // A byte behind a short value is not zero.
    Padding,
    // There is no buffer of that index.
    Index,
    // The value ends past its buffer.
    End,
    // The first four bytes are not those of the value.
    Prefix,
}

impl ViewFault {
    // The number of the cause, from 1 on.
    pub fn cause(self) -> u8
        ensures { result ≡ view_cause self }
    {
        match self {
            ViewFault::Padding => 1,
            ViewFault::Index => 2,
            ViewFault::End => 3,
            ViewFault::Prefix => 4,
        }
    }
}

// Why a column is refused.
#[derive(Clone, Copy, PartialEq, Eq, Debug)]
pub enum ColumnFault {
    // A part of the data ends past the data, or past the greatest place.
    Range,
    // More rows than a column may have.
    Rows,
    // There is no such kind of element.
    Kind,
    // The view of this valid row is malformed.
    View { row: usize, fault: ViewFault },
}

// A view's fault goes up whole, with the row of the view.
impl From<(usize, ViewFault)> for ColumnFault {
    ghost from_gives = { λ x r. r ≡ at_row x.0 x.1 };

    fn from(at: (usize, ViewFault)) -> ColumnFault {
        let (row, fault) = at;
        ColumnFault::View { row, fault }
    }
}

// A refusal as it is told: its number, and the row and the cause where it carries them.
#[derive(Clone, Copy, PartialEq, Eq, Debug)]
pub struct Refusal {
    pub number: u8,
    pub row: Option<usize>,
    pub cause: Option<u8>,
}

impl ColumnFault {
    pub fn refusal(self) -> Refusal
        ensures { result ≡ column_refusal self }
    {
        let (number, row, cause) = match self {
            ColumnFault::Range => (1, None, None),
            ColumnFault::Rows => (2, None, None),
            ColumnFault::Kind => (3, None, None),
            ColumnFault::View { row, fault } => (7, Some(row), Some(fault.cause())),
        };
        Refusal { number, row, cause }
    }

    pub fn number(self) -> u8
        ensures { result ≡ column_number self }
    {
        self.refusal().number
    }
}
