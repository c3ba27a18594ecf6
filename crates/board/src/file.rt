// Board files: a station to a line, NAME|COUNT|CHANNELS.
use duty::file::{find_byte, read_digits, split_once};
use std::alloc::{AllocError, Global};
use thiserror::Error;

// A station of a board. A count that is not there is missing, and not zero.
#[derive(Drop)]
pub(crate) struct Station {
    pub name: Vec<u8>,
    pub count: Option<u64>,
}

// What is wrong with a line.
#[derive(Clone, Copy, Debug, Error)]
pub(crate) enum LineFault {
    #[error("a line is NAME|COUNT|CHANNELS, with two bars")]
    Fields,
    #[error("the station has no name")]
    Name,
    #[error("the count is no decimal number of at most 64 bits")]
    Count,
}

// Why a file is not taken.
#[derive(Debug, Drop, Error)]
pub(crate) enum FileFault {
    #[error("no memory is left")]
    Memory(#[from(alloc)] AllocError),
    #[error("{number}: {fault}")]
    Line { number: usize, fault: LineFault },
}

// The fields of a line.
#[derive(Clone, Copy)]
struct Fields<'a> {
    name: &'a [u8],
    count: Option<u64>,
}

// The count field: nothing at all is a missing count.
fn read_count(field: &[u8]) -> Result<Option<u64>, LineFault> {
    if field.is_empty() {
        return Ok(None);
    }
    read_digits(field).map(Some).ok_or(LineFault::Count)
}

fn read_line(line: &[u8]) -> Result<Fields<'_>, LineFault> {
    let (name, rest) = split_once(line, b'|').ok_or(LineFault::Fields)?;
    let (count, channels) = split_once(rest, b'|').ok_or(LineFault::Fields)?;
    if find_byte(channels, b'|').is_some() {
        return Err(LineFault::Fields);
    }
    if name.is_empty() {
        return Err(LineFault::Name);
    }
    let count = read_count(count)?;
    Ok(Fields { name, count })
}

// A line without the carriage return at its end.
fn trimmed(line: &[u8]) -> &[u8] {
    line.strip_suffix(b"\r").unwrap_or(line)
}

// Comments and empty lines tell of no station.
fn is_blank(line: &[u8]) -> bool {
    line.is_empty() || line.starts_with(b"#")
}

// The stations of a file, in the order of its lines.
pub(crate) fn read_stations(heap: Global, text: &[u8]) -> Result<Vec<Station>, FileFault> {
    let mut stations = Vec::new(heap);
    for (i, line) in text.split(|b| *b == b'\n').enumerate() {
        let line = trimmed(line);
        if !is_blank(line) {
            let number = i.saturating_add(1);
            let fields = read_line(line).map_err(|fault| FileFault::Line { number, fault })?;
            let name = fields.name.to_vec(heap)?;
            let count = fields.count;
            stations.push(Station { name, count })?;
        }
    }
    Ok(stations)
}
