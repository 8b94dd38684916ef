//! Tests of stores in SQLite: they do what those over lists do, name damaged rows, and keep what they kept where files fail. Each
//! call is made once more where memory ran out, so the tests pass with any one allocation refused too.
#![tactic(auto)]

#[cfg(test)]
mod fused;
#[cfg(test)]
mod sqldesks;
#[cfg(test)]
mod sqlstores;
