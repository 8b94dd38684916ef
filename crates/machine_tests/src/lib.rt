//! Tests of a site, of the coordinator and of what they keep, each alone: the letters of scripts, answers put together from what
//! leaves brought, and stores that refuse. Each call is made once more where memory ran out, so the tests pass
//! with any one allocation refused too.
#![tactic(auto)]

#[cfg(test)]
mod calls;
#[cfg(test)]
mod desks;
#[cfg(test)]
mod letters;
#[cfg(test)]
mod outcomes;
#[cfg(test)]
mod refragments;
#[cfg(test)]
mod refused;
#[cfg(test)]
mod refused_calls;
#[cfg(test)]
mod refused_decisions;
#[cfg(test)]
mod refusing;
#[cfg(test)]
mod refusing_desk;
#[cfg(test)]
mod sites;
#[cfg(test)]
mod told;
