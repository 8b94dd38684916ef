//! Tests of whole databases that no row under `tests/rows` can show yet: statements over several relations, public calls that the
//! program doesn't make, and the events of a world. Each call is made once more where memory ran out, so the tests pass with any
//! one allocation refused too.
#![tactic(auto)]

#[cfg(test)]
mod catalogue_schedules;
#[cfg(test)]
mod chance;
#[cfg(test)]
mod ends;
#[cfg(test)]
mod one_client;
#[cfg(test)]
mod schedules;
#[cfg(test)]
mod sqldatabases;
#[cfg(test)]
mod statements;
#[cfg(test)]
mod transactions;
#[cfg(test)]
mod worlds;
