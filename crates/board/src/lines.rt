// The board and the lines of the duty list, printed.
use crate::day::Findings;
use crate::file::Station;
use crate::names::{NameFindings, Pair};
use crate::show::{Count, bit};
use std::alloc::{AllocError, Global};
use std::fmt;

// How a line of the duty list is marked.
#[derive(Clone, Copy, PartialEq, Eq)]
pub(crate) enum Mark {
    Tick,
    Cross,
}

impl Mark {
    // A line is ticked where nothing was caught.
    fn ticked_if(clear: bool) -> Mark {
        if clear { Mark::Tick } else { Mark::Cross }
    }
}

impl fmt::Display for Mark {
    fn fmt<W: fmt::Write>(&self, f: &mut fmt::Formatter<W>) -> fmt::Result {
        f.pad(match self {
            Mark::Tick => "tick",
            Mark::Cross => "cross",
        })
    }
}

// Adds the name of a station to a list of names.
fn add_name(names: &mut String, station: &Station) -> Result<(), AllocError> {
    if !names.is_empty() {
        names.push_str(", ")?;
    }
    write!(names, "{station}")
}

// The names of some stations.
fn list_names(heap: Global, stations: &[&Station]) -> Result<String, AllocError> {
    let mut names = String::new(heap);
    for station in stations {
        add_name(&mut names, station)?;
    }
    Ok(names)
}

// Prints the head of a line of the duty list.
fn print_head(rt: &HostRuntime, title: &str, rule: &str, mark: Mark) -> anyhow::Result<()> {
    println!(rt; "[{mark:<5}] {title}")?;
    println!(rt; "        rule: {rule}")?;
    Ok(())
}

// Prints the names that a line tells, where there are any.
fn print_told(rt: &HostRuntime, what: &str, names: &str) -> anyhow::Result<()> {
    if !names.is_empty() {
        println!(rt; "        {what}: {names}")?;
    }
    Ok(())
}

// Prints two stations that look like one.
fn print_pair(rt: &HostRuntime, pair: &Pair<'_>) -> anyhow::Result<()> {
    let Pair {
        first,
        second,
        likeness,
    } = *pair;
    println!(rt; "        entered twice: {first} and {second}, {likeness}")?;
    Ok(())
}

// Prints the line of the duty list on the names.
pub(crate) fn print_names(rt: &HostRuntime, findings: &NameFindings<'_>) -> anyhow::Result<()> {
    let absent = list_names(rt.alloc(), findings.absent.as_slice())?;
    let clear = absent.is_empty() && findings.pairs.is_empty();
    print_head(
        rt,
        "Left side against the install sheet: a station entered twice",
        "a proper beginning is less: a name and the same name with one byte more are never equal",
        Mark::ticked_if(clear),
    )?;
    print_told(rt, "not on the sheet", absent.as_str())?;
    for pair in findings.pairs.as_slice() {
        print_pair(rt, pair)?;
    }
    Ok(())
}

// The board, with what was found on it.
#[derive(Clone, Copy)]
pub(crate) struct Board<'a> {
    pub rt: &'a HostRuntime,
    pub stations: &'a [Station],
    // The counts of the day before.
    pub before: &'a [Option<u64>],
    pub findings: &'a Findings,
}

impl<'a> Board<'a> {
    // Prints the counts of today against those of the day before: names left, counts right.
    pub(crate) fn print_counts(&self) -> anyhow::Result<()> {
        let heap = self.rt.alloc();
        for (i, (station, before)) in self.stations.iter().zip(self.before).enumerate() {
            let name = station.to_string(heap)?;
            let count = Count(station.count);
            let old = Count(*before);
            let sign = if bit(self.findings.fell.as_slice(), i) {
                "<"
            } else if bit(self.findings.same.as_slice(), i) {
                "="
            } else {
                ">"
            };
            println!(self.rt; "  {name:<24} {count:>20} {sign} {old}")?;
        }
        Ok(())
    }

    // The names of the stations whose bit is set in both results.
    fn names_in(&self, bits: &[u8], others: &[u8]) -> Result<String, AllocError> {
        let mut names = String::new(self.rt.alloc());
        for (i, station) in self.stations.iter().enumerate() {
            if bit(bits, i) && bit(others, i) {
                add_name(&mut names, station)?;
            }
        }
        Ok(names)
    }

    // Prints a line of the duty list, which catches the stations whose bit is set in both results.
    fn print_line(
        &self,
        title: &str,
        rule: &str,
        bits: &[u8],
        others: &[u8],
    ) -> anyhow::Result<Mark> {
        let caught = self.names_in(bits, others)?;
        let mark = Mark::ticked_if(caught.is_empty());
        print_head(self.rt, title, rule, mark)?;
        print_told(self.rt, "caught", caught.as_str())?;
        Ok(mark)
    }

    pub(crate) fn print_quiet(&self) -> anyhow::Result<Mark> {
        self.print_line(
            "Right side against the day before: a channel gone quiet",
            "today <= 0 and yesterday > 0; a missing count is null, the lowest value, so it is <= 0 too",
            self.findings.silent.as_slice(),
            self.findings.heard.as_slice(),
        )
    }

    pub(crate) fn print_missing(&self) -> anyhow::Result<Mark> {
        let missing = self.findings.missing.as_slice();
        let zero = self.findings.zero.as_slice();
        let mark = self.print_line(
            "Rows without a count: a missing count taken for zero",
            "count < 0 holds of null alone, and count = 0 never holds of null",
            missing,
            missing,
        )?;
        let zero = self.names_in(zero, zero)?;
        print_told(self.rt, "zero and not missing", zero.as_str())?;
        Ok(mark)
    }

    pub(crate) fn print_past(&self, threshold: u64) -> anyhow::Result<Mark> {
        let rt = self.rt;
        let heap = rt.alloc();
        let after = self.findings.past.after.as_slice();
        let before = self.findings.past.before.as_slice();
        let rule = format!(in heap;
            "count > {threshold} and {threshold} < count are one: sides exchanged, the operator is swapped"
        )?;
        let mark = self.print_line(
            "Rows past a threshold, before or after the sign: a threshold read backwards",
            rule.as_str(),
            after,
            after,
        )?;
        if after == before {
            println!(rt; "        the same rows with the threshold before the sign")?;
        } else {
            let again = self.names_in(before, before)?;
            println!(rt; "        other rows with the threshold before the sign: {again}")?;
        }
        Ok(mark)
    }
}
