// Two days of packet counts, and what the duty list asks of them.
ghost use Rattle.std.specs.Prelude.{◌≡◌, map, IfOk};
ghost use Rattle.rows.specs.declared.operator.CompareOperator.TheVariants.{Eq, Gt, Lt, Lte};
ghost use Rattle.board.specs.Days.{against, pairwise};
ghost use Rattle.board.specs.declared.file.Station.{Station};

use crate::file::Station;
use duty::checks::{BothWays, DutyFault, compare_counts, compare_threshold};
use rows::operator::CompareOperator;
use std::alloc::{AllocError, Global};
use std::collections::{BTreeMap, BTreeSet};

// The counts of today's stations.
pub(crate) fn counts_today(heap: Global, today: &[Station]) -> Result<Vec<Option<u64>>, AllocError>
    ensures { IfOk result (λ v. v.items ≡ map (λ (station : Station). station.count) today.now) }
{
    today.iter().map(|station| station.count).collect(heap)
}

// The counts of stations by their names: the first station of a name counts.
fn counts_by_name<'a>(
    heap: Global,
    stations: &'a [Station],
) -> Result<BTreeMap<&'a [u8], Option<u64>>, AllocError> {
    let mut counts = BTreeMap::new(heap);
    for station in stations {
        counts
            .entry(station.name.as_slice())?
            .or_insert(station.count);
    }
    Ok(counts)
}

// The same of the names of some stations alone. A name that was found is sought no longer.
fn counts_of_names<'a>(
    heap: Global,
    asked: &'a [Station],
    stations: &'a [Station],
) -> Result<BTreeMap<&'a [u8], Option<u64>>, AllocError> {
    let mut sought = BTreeSet::new(heap);
    for station in asked {
        sought.insert(station.name.as_slice())?;
    }
    let mut counts = BTreeMap::new(heap);
    for station in stations {
        if sought.is_empty() {
            break;
        }
        if sought.remove(station.name.as_slice()) {
            counts.insert(station.name.as_slice(), station.count)?;
        }
    }
    Ok(counts)
}

// What some counts by name tell of these stations: a count is missing where its name is.
fn look_up(
    heap: Global,
    stations: &[Station],
    counts: &BTreeMap<&[u8], Option<u64>>,
) -> Result<Vec<Option<u64>>, AllocError> {
    stations
        .iter()
        .map(|station| counts.get(station.name.as_slice()).copied().flatten())
        .collect(heap)
}

// The counts that the same stations had the day before: missing where there was no such station.
// A map is made of the shorter of the two days.
pub(crate) fn counts_before(
    heap: Global,
    today: &[Station],
    yesterday: Vec<Station>,
) -> Result<Vec<Option<u64>>, AllocError> {
    let yesterday = yesterday.as_slice();
    if today.len() < yesterday.len() {
        return look_up(heap, today, &counts_of_names(heap, today, yesterday)?);
    }
    look_up(heap, today, &counts_by_name(heap, yesterday)?)
}

// The results of the comparisons, bit i for station i.
#[derive(Drop)]
pub(crate) struct Findings {
    // Today's count is below yesterday's, and equal to it.
    pub fell: Vec<u8>,
    pub same: Vec<u8>,
    // Nothing today, and something the day before.
    pub silent: Vec<u8>,
    pub heard: Vec<u8>,
    // Below every number, and equal to zero.
    pub missing: Vec<u8>,
    pub zero: Vec<u8>,
    // Past the threshold.
    pub past: BothWays,
}

// Each count, the operator, zero.
fn against_zero(
    heap: Global,
    counts: &[Option<u64>],
    op: CompareOperator,
) -> Result<Vec<u8>, DutyFault>
    ensures { IfOk result (λ v. v.items ≡ against counts.now 0 op) }
{
    let BothWays { after, .. } = compare_threshold(heap, counts, 0, op)?;
    Ok(after)
}

pub(crate) fn compare_days(
    heap: Global,
    today: &[Option<u64>],
    yesterday: &[Option<u64>],
    threshold: u64,
) -> Result<Findings, DutyFault>
    ensures fell { IfOk result (λ f. f.fell.items ≡ pairwise today.now yesterday.now Lt) }
    ensures same { IfOk result (λ f. f.same.items ≡ pairwise today.now yesterday.now Eq) }
    ensures silent { IfOk result (λ f. f.silent.items ≡ against today.now 0 Lte) }
    ensures heard { IfOk result (λ f. f.heard.items ≡ against yesterday.now 0 Gt) }
    ensures missing { IfOk result (λ f. f.missing.items ≡ against today.now 0 Lt) }
    ensures zero { IfOk result (λ f. f.zero.items ≡ against today.now 0 Eq) }
    ensures past { IfOk result (λ f. f.past.after.items ≡ against today.now threshold Gt) }
    ensures both { IfOk result (λ f. f.past.before.items ≡ f.past.after.items) }
{
    Ok(Findings {
        fell: compare_counts(heap, today, yesterday, CompareOperator::Lt)?,
        same: compare_counts(heap, today, yesterday, CompareOperator::Eq)?,
        silent: against_zero(heap, today, CompareOperator::Lte)?,
        heard: against_zero(heap, yesterday, CompareOperator::Gt)?,
        missing: against_zero(heap, today, CompareOperator::Lt)?,
        zero: against_zero(heap, today, CompareOperator::Eq)?,
        past: compare_threshold(heap, today, threshold, CompareOperator::Gt)?,
    })
}
