// Row comparators, and a collector of the results they give.
#![tactic(auto)]

ghost use Rattle.rows.specs.Laws.{RowOrder, Collections};

pub mod collector;
pub mod comparator;
pub mod fixed;
pub mod laws;
pub mod operator;
pub mod packing;

// The order of row values is total and transitive, and Equal only for one value; lists go by their first difference, and a proper beginning is less.
pub fn row_order_stands()
    ensures { RowOrder }
{}

// Collections over exchanged lists agree under the swapped operator, and Lte goes on from list to list.
pub fn collections_stand()
    ensures { Collections }
{}
