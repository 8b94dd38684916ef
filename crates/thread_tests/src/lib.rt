//! Tests of databases whose sites work in threads: sites that wait for each other, by a gate and by stores, what sessions are told,
//! and that it is woven into one run.
#![tactic(auto)]

#[cfg(test)]
mod another_split;
#[cfg(test)]
mod meeting;
#[cfg(test)]
mod site_stores;
#[cfg(test)]
mod threads;
