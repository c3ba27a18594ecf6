// The element kinds, their keys, and decimals.
#![tactic(auto)]

ghost use Rattle.elements.specs.Readings.{Readings};
ghost use Rattle.elements.specs.TotalOrder.{KeysAreTotalOrder};

pub mod decimal;
pub mod keys;
pub mod kind;
pub mod ptype;
mod reader;

// The order of the keys of floats is IEEE 754 totalOrder, in each of the three formats.
#[tactic(auto, using(crate::proofs::TotalOrders::stands))]
pub fn float_order_stands()
    ensures { KeysAreTotalOrder }
{}

// Worked readings of the definitions, all together.
#[tactic(auto, unfolding(crate::specs::Keys::key_of, crate::specs::Keys::key_by))]
pub fn readings_stand()
    ensures { Readings }
{}
