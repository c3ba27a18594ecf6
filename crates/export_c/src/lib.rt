// The static library's C interface: what the crate export compares, under the same clauses.
#![tactic(auto)]

ghost use Rattle.std.specs.Prelude.{◌≡◌, length};
ghost use Rattle.elements.specs.Kinds.{coded};
ghost use Rattle.export.specs.Exported.{exported_by, exported_texts, filled_by, filled_texts, one_buffer, operator_of, validity_of};

// Bit i of the output is the operator of the order of left row i and right row i, or of right row 0 where `fixed` is set.
// Each column has `len` elements of the kind with the code `ptype`, from its start on; where `nullable` is set it has a bitmap.
// Answers 0, or the number of the refusal, which leaves the output as it was.
#[unsafe(no_mangle)]
pub extern "C" fn compare_numbers(
    bytes: &[u8],
    ptype: u64,
    left: usize,
    left_bitmap: usize,
    right: usize,
    right_bitmap: usize,
    nullable: bool,
    len: usize,
    op: u8,
    fixed: bool,
    out: &mut [u8],
) -> u8
    ensures answers { result ≡ exported_by (coded ptype) bytes.now left (validity_of nullable left_bitmap) right (validity_of nullable right_bitmap) fixed len (length out.old) }
    ensures writes { out.new ≡ filled_by (coded ptype) bytes.now left (validity_of nullable left_bitmap) right (validity_of nullable right_bitmap) (operator_of op) fixed len result out.old }
{
    export::compare_numbers(
        bytes,
        ptype,
        left,
        left_bitmap,
        right,
        right_bitmap,
        nullable,
        len,
        op,
        fixed,
        out,
    )
}

// Bit i of the output is the operator of the order of left row i and right row i, or of right row 0 where `fixed` is set.
// Each column has `len` views, from its start on, over one buffer; where `nullable` is set it has a bitmap.
// Answers 0, or the number of the refusal, which leaves the output as it was.
#[unsafe(no_mangle)]
pub extern "C" fn compare_views(
    bytes: &[u8],
    buffer: usize,
    buffer_len: usize,
    left: usize,
    left_bitmap: usize,
    right: usize,
    right_bitmap: usize,
    nullable: bool,
    len: usize,
    op: u8,
    fixed: bool,
    again: usize,
    out: &mut [u8],
) -> u8
    ensures answers { result ≡ exported_texts (one_buffer buffer buffer_len) bytes.now left (validity_of nullable left_bitmap) right (validity_of nullable right_bitmap) fixed len (length out.old) }
    ensures writes { out.new ≡ filled_texts (one_buffer buffer buffer_len) bytes.now left (validity_of nullable left_bitmap) right (validity_of nullable right_bitmap) (operator_of op) fixed len result out.old }
{
    export::compare_views(
        bytes,
        buffer,
        buffer_len,
        left,
        left_bitmap,
        right,
        right_bitmap,
        nullable,
        len,
        op,
        fixed,
        again,
        out,
    )
}
