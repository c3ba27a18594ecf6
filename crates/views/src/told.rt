// Values that two words tell of.
ghost use Rattle.std.specs.Prelude.{◌≡◌, ℕ, true, List};
ghost use Rattle.views.specs.View.{view_bytes};
ghost use Rattle.views.specs.Words.{Whole, Words};

use crate::view::View;

pub trait Told<'a>: Copy {
    ghost told: { Self → List ℕ };

    // The sixteen bytes of a view of the value.
    ghost image: { Self → List ℕ };

    // The words of these bytes, and what they tell of the value.
    fn words(self) -> View
        ensures image { view_bytes result ≡ image self }
        ensures tells { Words (view_bytes result) (told self) };

    // Whether the words hold the first twelve bytes of the value, zeros past its end.
    fn has_front(self) -> bool
        ensures { result ≡ true → Whole (image self) (told self) };

    // The value where it stands.
    fn value(self) -> &'a [u8]
        ensures { result.now ≡ told self };
}
