// What the board is run on, and its files.
use crate::file::{FileFault, Station, read_stations};
use anyhow::{anyhow, bail};
use duty::file::read_digits;
use std::fmt::Display;
use std::{env, fs};

#[derive(Drop)]
pub(crate) struct Request {
    pub today: String,
    pub yesterday: String,
    // The install sheet, where one is given.
    pub sheet: Option<String>,
    pub threshold: u64,
}

// The example, beside the program or in its folder of the repository.
fn example(rt: &HostRuntime) -> anyhow::Result<Request> {
    let heap = rt.alloc();
    let folder = if fs::exists(rt, "today.txt")? {
        ""
    } else {
        "crates/board/data/"
    };
    Ok(Request {
        today: format!(in heap; "{folder}today.txt")?,
        yesterday: format!(in heap; "{folder}yesterday.txt")?,
        sheet: None,
        threshold: 8_640_000,
    })
}

// TODAY YESTERDAY THRESHOLD, with SHEET before the threshold where there is one, or no word at all for the example.
pub(crate) fn read_request(rt: &HostRuntime) -> anyhow::Result<Request> {
    let words: Vec<String> = env::args(rt)?.skip(1).collect(rt.alloc())?;
    let (today, yesterday, sheet, threshold) = match words.as_slice() {
        [] => return example(rt),
        [today, yesterday, threshold] => (today, yesterday, None, threshold),
        [today, yesterday, sheet, threshold] => (today, yesterday, Some(sheet), threshold),
        _ => bail!("run it as: board TODAY YESTERDAY THRESHOLD"),
    };
    let Some(threshold) = read_digits(threshold.as_bytes()) else {
        bail!("the threshold is no decimal number of at most 64 bits");
    };
    Ok(Request {
        today: today.clone()?,
        yesterday: yesterday.clone()?,
        sheet: sheet.cloned()?,
        threshold,
    })
}

// Prints why a file is not taken, and gives up.
fn refuse(rt: &HostRuntime, why: impl Display + Drop) -> anyhow::Error {
    let _ = eprintln!(rt; "{why}");
    anyhow!("the board is not read")
}

// The stations of a file.
pub(crate) fn load(rt: &HostRuntime, path: &str) -> anyhow::Result<Vec<Station>> {
    let text = fs::read(rt, path).map_err(|e| refuse(rt, format_args!("{path}: {e}")))?;
    read_stations(rt.alloc(), text.as_slice()).map_err(|fault| match fault {
        FileFault::Memory(_) => anyhow::Error::from(fault),
        FileFault::Line { .. } => refuse(rt, format_args!("{path}:{fault}")),
    })
}
