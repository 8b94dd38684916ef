//! Schedules by chance over three catalogues, in which relations get another split meanwhile: what was committed has to be
//! what whole relations come to, one transaction after another.

use crate::schedules::{is_serial, is_serial_over_sql, played};
use catalog::chain::Chain;
use samples::catalogues::{DEPT_IN_THREE, EMP_AND_DEPT, EMP_BY_ROWS};
use samples::chains::catalog;
use std::alloc::Global;
use std::test::*;
use terms::memory::Memory;

/// Three catalogues: first one relation gets another split, and then the other.
pub(crate) fn three(alloc: Global) -> Result<Chain, Memory> {
    let mut catalogs = Vec::new(alloc);
    for text in [EMP_AND_DEPT, EMP_BY_ROWS, DEPT_IN_THREE] {
        catalogs.push(catalog(alloc, text)?)?;
    }
    Chain::new(catalogs).map_err(|_| Memory)
}

/// Whether the schedule of a seed over three catalogues comes to what whole relations do, over lists and, where asked for, over
/// SQLite. Counts one more schedule that ended under the catalogue in force.
fn moves(alloc: Global, seed: u64, in_sql: bool, ended: &mut [u64; 3]) -> Result<bool, Memory> {
    let chain = three(alloc)?;
    let mut schedule = played(alloc, seed, &chain)?;
    let place = schedule.world.version().saturating_sub(1) as usize;
    if let Some(count) = ended.get_mut(place) {
        *count = count.saturating_add(1);
    }
    Ok(
        is_serial(alloc, &mut schedule.world)?
            && (!in_sql || is_serial_over_sql(alloc, &chain, schedule.events.as_slice())?),
    )
}

/// Once more where memory ran out.
fn is_moved(alloc: Global, seed: u64, in_sql: bool, ended: &mut [u64; 3]) -> bool {
    match moves(alloc, seed, in_sql, ended) {
        Ok(is_right) => is_right,
        Err(_) => moves(alloc, seed, in_sql, ended) == Ok(true),
    }
}

#[test]
fn schedules_over_catalogues(rt: HostRuntime) {
    let mut ended = [0; 3];
    for seed in 1..201 {
        assert!(rt;
            is_moved(rt.alloc(), seed, false, &mut ended),
            "seed {seed}"
        );
    }
    for (place, count) in ended.iter().enumerate() {
        assert!(rt; *count > 0, "{place}");
    }
}

#[test]
fn schedules_over_catalogues_in_sql(rt: HostRuntime) {
    let mut ended = [0; 3];
    for seed in 1..11 {
        assert!(rt; is_moved(rt.alloc(), seed, true, &mut ended), "seed {seed}");
    }
}
