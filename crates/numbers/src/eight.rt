// Eight elements in the data.
ghost use Rattle.std.specs.Prelude.{◌≡◌, Bool, true, false};
ghost use Rattle.elements.specs.Kinds.{width_of};
ghost use Rattle.numbers.specs.Eights.{LieIn};

use elements::kind::ElementKind;
use std::marker::PhantomData;

// How eight elements stand: side by side, or fixed, all of them one.
pub(crate) trait Spread {
    const FIXED: bool;

    ghost FIXED: { Bool };
}

pub(crate) struct Beside;

impl Spread for Beside {
    const FIXED: bool = false;

    ghost FIXED = { false };
}

pub(crate) struct Fixed;

impl Spread for Fixed {
    const FIXED: bool = true;

    ghost FIXED = { true };
}

// Eight elements from `start` on.
#[derive(Drop)]
pub(crate) struct Eight<'a, K: ElementKind, S: Spread> {
    pub(crate) bytes: &'a [u8],
    pub(crate) start: usize,
    pub(crate) of: PhantomData<(K, S)>,
    // All of them lie in the data.
    ghost inside: { LieIn (width_of K.PTYPE) bytes.now start S.FIXED },
}
