// The left side of the board: its names against the install sheet, and against each other.
use crate::file::Station;
use crate::show::bit;
use duty::checks::DutyFault;
use duty::names::{NameArea, name_area, plain_name};
use duty::roster::{compare_name, compare_names_apart};
use rows::operator::CompareOperator;
use std::alloc::{AllocError, Global};
use std::fmt;

// How two names differ that print the same.
#[derive(Clone, Copy)]
pub(crate) enum Likeness {
    // In no byte.
    Same,
    // In bytes that do not print.
    Unprinted,
}

impl fmt::Display for Likeness {
    fn fmt<W: fmt::Write>(&self, f: &mut fmt::Formatter<W>) -> fmt::Result {
        f.write_str(match self {
            Likeness::Same => "under one name",
            Likeness::Unprinted => "apart only in bytes that do not print",
        })
    }
}

// Two stations of the board whose names print the same.
#[derive(Clone, Copy)]
pub(crate) struct Pair<'a> {
    pub first: &'a Station,
    pub second: &'a Station,
    pub likeness: Likeness,
}

// What the comparisons of names find.
#[derive(Drop)]
pub(crate) struct NameFindings<'a> {
    // The stations that are not on the sheet.
    pub absent: Vec<&'a Station>,
    pub pairs: Vec<Pair<'a>>,
}

// The column of the stations' names, in the form that is asked for.
fn names_as<F: Fn(&[u8]) -> Result<Vec<u8>, AllocError>>(
    heap: Global,
    stations: &[Station],
    form: F,
) -> Result<NameArea, DutyFault>
    requires { F.IsAlwaysCallable form }
{
    let names: Vec<Vec<u8>> = stations
        .iter()
        .map(|station| form(station.name.as_slice()))
        .try_collect(heap)?;
    name_area(heap, names.as_slice())
}

// The names as they stand.
fn whole_names(heap: Global, stations: &[Station]) -> Result<NameArea, DutyFault> {
    names_as(heap, stations, |name| name.to_vec(heap))
}

// Whether the area has the name.
fn has_name(heap: Global, names: &NameArea, name: &[u8]) -> Result<bool, DutyFault> {
    let equal = compare_name(heap, names, name, CompareOperator::Eq)?;
    Ok(equal.iter().any(|byte| *byte != 0))
}

// The stations that the sheet lacks.
fn find_absent<'a>(
    heap: Global,
    stations: &'a [Station],
    sheet: &[Station],
) -> Result<Vec<&'a Station>, DutyFault> {
    let listed = whole_names(heap, sheet)?;
    let mut absent = Vec::new(heap);
    for station in stations {
        if !has_name(heap, &listed, station.name.as_slice())? {
            absent.push(station)?;
        }
    }
    Ok(absent)
}

// The stations of a board, with their names as they stand and without the bytes that do not print.
#[derive(Drop)]
struct Roster<'a> {
    stations: &'a [Station],
    whole: NameArea,
    plain: NameArea,
}

impl<'a> Roster<'a> {
    fn new(heap: Global, stations: &'a [Station]) -> Result<Roster<'a>, DutyFault> {
        Ok(Roster {
            stations,
            whole: whole_names(heap, stations)?,
            plain: names_as(heap, stations, |name| plain_name(heap, name))?,
        })
    }

    // Adds the pairs of stations that stand so far apart.
    fn add_pairs(
        &self,
        heap: Global,
        distance: usize,
        pairs: &mut Vec<Pair<'a>>,
    ) -> Result<(), DutyFault> {
        let alike = compare_names_apart(heap, &self.plain, distance, CompareOperator::Eq)?;
        let same = compare_names_apart(heap, &self.whole, distance, CompareOperator::Eq)?;
        let behind = self.stations.iter().skip(distance);
        for (i, (first, second)) in self.stations.iter().zip(behind).enumerate() {
            if bit(alike.as_slice(), i) {
                let likeness = if bit(same.as_slice(), i) {
                    Likeness::Same
                } else {
                    Likeness::Unprinted
                };
                pairs.push(Pair {
                    first,
                    second,
                    likeness,
                })?;
            }
        }
        Ok(())
    }
}

// Every pair, the nearest first.
fn find_pairs<'a>(heap: Global, stations: &'a [Station]) -> Result<Vec<Pair<'a>>, DutyFault> {
    let roster = Roster::new(heap, stations)?;
    let mut pairs = Vec::new(heap);
    for distance in 1..stations.len() {
        roster.add_pairs(heap, distance, &mut pairs)?;
    }
    Ok(pairs)
}

pub(crate) fn compare_names<'a>(
    heap: Global,
    stations: &'a [Station],
    sheet: &[Station],
) -> Result<NameFindings<'a>, DutyFault> {
    Ok(NameFindings {
        absent: find_absent(heap, stations, sheet)?,
        pairs: find_pairs(heap, stations)?,
    })
}
