// A well-formed view where it stands, with the data and the buffers that its value stands in.
ghost use Rattle.std.specs.Prelude.{◌≡◌, ◌+◌, ◌≤◌, length, take, drop, None};
ghost use Rattle.views.specs.View.{view_fault};

use parts::part::Part;

#[derive(Clone, Copy)]
pub struct ResolvedView<'a> {
    // Where the sixteen bytes of the view stand.
    pub(crate) at: usize,
    pub(crate) bytes: &'a [u8],
    pub(crate) buffers: &'a [Part],
    ghost inside: { at + 16 ≤ length bytes.now },
    ghost formed: { view_fault bytes.now buffers.now (take 16 (drop at bytes.now)) ≡ None },
}
