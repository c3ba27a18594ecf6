// A column of packet counts in a data area of its own.
ghost use Rattle.std.specs.Prelude.{◌≡◌, ℕ, ◌*◌, ◌^◌, ◌<◌, ◌++◌, length, IfOk, OnOk};
ghost use Rattle.std.specs.List.{flat_map};
ghost use Rattle.rows.specs.Bits.{bytes_of};
ghost use Rattle.duty.specs.Counts.{area_rows, count_rows};
ghost use Rattle.duty.specs.Layout.{count_bytes, count_value, present};

use rows::packing::pack;
use std::alloc::{AllocError, Global};

// Appends the values of the counts, each of which fits.
fn push_values(bytes: &mut Vec<u8>, counts: &[Option<u64>]) -> Result<(), AllocError>
    ensures appends { OnOk result (bytes.new.items ≡ bytes.old.items ++ flat_map count_bytes counts.now) }
    ensures fit { OnOk result ((i : ℕ) → i < length counts.now → count_value counts.now i < 2 ^ 64) }
{
    for count in counts {
        let value = count.unwrap_or(0);
        bytes.extend_from_slice(&value.to_le_bytes())?;
    }
    Ok(())
}

// Appends the bitmap of the counts that are there.
fn push_bitmap(bytes: &mut Vec<u8>, counts: &[Option<u64>]) -> Result<(), AllocError>
    ensures { OnOk result (bytes.new.items ≡ bytes.old.items ++ bytes_of (present counts.now) (length counts.now)) }
{
    for eight in counts.chunks(8) {
        bytes.push(pack(|i| eight[i].is_some(), eight.len()))?;
    }
    Ok(())
}

// The counts as U64 values from byte 0 on, and behind them the bitmap of those that are there.
pub fn count_area(heap: Global, counts: &[Option<u64>]) -> Result<Vec<u8>, AllocError>
    ensures { IfOk result (λ v. area_rows v.items (length counts.now) ≡ count_rows counts.now) }
{
    let mut bytes = Vec::new(heap);
    push_values(&mut bytes, counts)?;
    push_bitmap(&mut bytes, counts)?;
    Ok(bytes)
}
