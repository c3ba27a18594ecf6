// Why two columns are not compared.
ghost use Rattle.std.specs.Prelude.{◌≡◌};
ghost use Rattle.export.specs.declared.fault.CompareFault.{CompareFault};
ghost use Rattle.export.specs.Faults.{compare_number};

use faults::{CollectFault, ColumnFault};

#[derive(Clone, Copy, PartialEq, Eq, Debug)]
pub enum CompareFault {
    Column(ColumnFault),
    Collect(CollectFault),
}

// The lower fault is kept whole.
impl From<ColumnFault> for CompareFault {
    ghost from_gives = { λ f r. r ≡ CompareFault.Column f };

    fn from(fault: ColumnFault) -> CompareFault {
        CompareFault::Column(fault)
    }
}

impl From<CollectFault> for CompareFault {
    ghost from_gives = { λ f r. r ≡ CompareFault.Collect f };

    fn from(fault: CollectFault) -> CompareFault {
        CompareFault::Collect(fault)
    }
}

impl CompareFault {
    // The number of the refusal.
    pub fn number(self) -> u8
        ensures { result ≡ compare_number self }
    {
        match self {
            CompareFault::Column(fault) => fault.number(),
            CompareFault::Collect(fault) => fault.number(),
        }
    }
}
