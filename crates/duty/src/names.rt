// Station names: as a column of texts in a data area of its own, and in printable characters.
ghost use Rattle.std.specs.Prelude.{◌≡◌, ◌^◌, ◌<◌, ◌++◌, length, IfOk, OnOk};
ghost use Rattle.elements.specs.Reading.{le_bytes};
ghost use Rattle.duty.specs.Names.{area_texts, long_part, name_rows, plain, view_of};

use crate::checks::DutyFault;
use faults::ColumnFault;
use parts::part::Part;
use std::alloc::{AllocError, Global};
use views::view::MAX_INLINED_SIZE;

// A view holds a name of at most so many bytes.
const INLINE: usize = MAX_INLINED_SIZE as usize;

// What fills a view up behind a name.
const PADDING: [u8; INLINE] = [0; INLINE];

// The printable ASCII characters of a name.
pub fn plain_name(heap: Global, name: &[u8]) -> Result<Vec<u8>, AllocError>
    ensures { IfOk result (λ v. v.items ≡ plain name.now) }
{
    name.iter()
        .copied()
        .filter(|b| *b >= b' ' && *b <= b'~')
        .collect(heap)
}

// Appends a number in four bytes, least significant first.
fn push_number(bytes: &mut Vec<u8>, n: u32) -> Result<(), AllocError>
    ensures { OnOk result (bytes.new.items ≡ bytes.old.items ++ le_bytes 4 n) }
{
    bytes.extend_from_slice(&n.to_le_bytes())
}

// A size or an offset, as a view tells it in four bytes.
fn told(n: usize) -> Result<u32, DutyFault>
    ensures { IfOk result (λ m. m ≡ n) }
{
    u32::try_from(n).map_err(|_| DutyFault::Column(ColumnFault::Range))
}

// Appends the view of a name of that size. A long name stands at the offset of the buffer.
fn push_view(views: &mut Vec<u8>, name: &[u8], size: u32, offset: u32) -> Result<(), AllocError>
    requires { size ≡ length name.now }
    ensures { OnOk result (views.new.items ≡ views.old.items ++ view_of name.now offset) }
{
    push_number(views, size)?;
    if name.len() <= INLINE {
        views.extend_from_slice(name)?;
        views.extend_from_slice(&PADDING[name.len()..])?;
    } else {
        views.extend_from_slice(&name[..4])?;
        push_number(views, 0)?;
        push_number(views, offset)?;
    }
    Ok(())
}

// Appends a name: its view to the views, and a long one to the buffer.
fn push_name(views: &mut Vec<u8>, buffer: &mut Vec<u8>, name: &[u8]) -> Result<(), DutyFault>
    ensures view { OnOk result (views.new.items ≡ views.old.items ++ view_of name.now (length buffer.old.items)) }
    ensures part { OnOk result (buffer.new.items ≡ buffer.old.items ++ long_part name.now) }
    ensures size { OnOk result (length name.now < 2 ^ 32) }
    ensures offset { OnOk result (length buffer.old.items < 2 ^ 32) }
{
    let size = told(name.len())?;
    let offset = told(buffer.len())?;
    push_view(views, name, size, offset)?;
    if name.len() > INLINE {
        buffer.extend_from_slice(name)?;
    }
    Ok(())
}

// Names as a column of views: the views from byte 0 on, and behind them the names that a view cannot hold.
#[derive(Drop)]
pub struct NameArea {
    pub bytes: Vec<u8>,
    // The one buffer, which holds the long names.
    pub buffers: [Part; 1],
    pub len: usize,
}

// The column of some names. Refused where a view cannot tell a size or an offset.
pub fn name_area(heap: Global, names: &[Vec<u8>]) -> Result<NameArea, DutyFault>
    ensures { IfOk result (λ a. (a.len ≡ length names.now) × (area_texts a ≡ name_rows names.now)) }
{
    let mut bytes = Vec::new(heap);
    let mut buffer = Vec::new(heap);
    for name in names {
        push_name(&mut bytes, &mut buffer, name.as_slice())?;
    }
    let buffers = [Part {
        start: bytes.len(),
        len: buffer.len(),
    }];
    bytes.extend_from_slice(buffer.as_slice())?;
    Ok(NameArea {
        bytes,
        buffers,
        len: names.len(),
    })
}
