// The duty board: two days of packet counts, and the lines of the duty list that they answer.
#![tactic(auto)]

use anyhow::anyhow;
use day::{compare_days, counts_before, counts_today};
use duty::checks::DutyFault;
use file::Station;
use lines::{Board, Mark, print_names};
use names::compare_names;
use request::{Request, load, read_request};

mod day;
mod file;
mod lines;
mod names;
mod request;
mod show;

// Prints why nothing was compared, and gives up.
fn refuse(rt: &HostRuntime, fault: DutyFault) -> anyhow::Error {
    if let DutyFault::Memory = fault {
        return anyhow::Error::from(fault);
    }
    let _ = eprintln!(rt; "the counts are not compared: {fault:?}");
    anyhow!("the counts are not compared")
}

// The left side against the install sheet, and each name against the others.
fn check_names(rt: &HostRuntime, stations: &[Station], sheet: &str) -> anyhow::Result<()> {
    let listed = load(rt, sheet)?;
    let listed = listed.as_slice();
    let names = compare_names(rt.alloc(), stations, listed).map_err(|e| refuse(rt, e))?;
    print_names(rt, &names)
}

fn run(rt: &HostRuntime) -> anyhow::Result<()> {
    let heap = rt.alloc();
    let Request {
        today,
        yesterday,
        sheet,
        threshold,
    } = read_request(rt)?;
    let stations = load(rt, today.as_str())?;
    let stations = stations.as_slice();
    let earlier = load(rt, yesterday.as_str())?;
    let counts = counts_today(heap, stations)?;
    let before = counts_before(heap, stations, earlier)?;
    let before = before.as_slice();
    let counts = counts.as_slice();
    let findings = compare_days(heap, counts, before, threshold).map_err(|e| refuse(rt, e))?;
    println!(rt; "Duty board: {today} against {yesterday}, threshold {threshold}")?;
    let board = Board {
        rt,
        stations,
        before,
        findings: &findings,
    };
    board.print_counts()?;
    println!(rt; "Duty list")?;
    if let Some(sheet) = &sheet {
        check_names(rt, stations, sheet.as_str())?;
    }
    let marks = [
        board.print_quiet()?,
        board.print_missing()?,
        board.print_past(threshold)?,
    ];
    let rows = stations.len();
    let crossed = marks.iter().filter(|mark| **mark == Mark::Cross).count();
    println!(rt;
        "Compared the counts of {rows} stations on two days; {crossed} of 3 lines crossed."
    )?;
    Ok(())
}

fn main(rt: HostRuntime) -> anyhow::Result<()> {
    run(&rt)
}
