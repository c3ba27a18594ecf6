// A number column that is read in place.
ghost use Rattle.std.specs.Prelude.{◌≡◌, None};
ghost use Rattle.elements.specs.Kinds.{width_of};
ghost use Rattle.numbers.specs.Columns.{number_fault};

use elements::kind::ElementKind;
use parts::validity::Validity;
use std::marker::PhantomData;

#[derive(Drop)]
pub struct NumberColumn<'a, K: ElementKind> {
    pub(crate) bytes: &'a [u8],
    pub(crate) start: usize,
    pub(crate) validity: Validity,
    pub(crate) len: usize,
    pub(crate) kind: PhantomData<K>,
    // Its rows, its validity and its values are granted.
    ghost granted: { number_fault (width_of K.PTYPE) bytes.now start validity len ≡ None },
}
