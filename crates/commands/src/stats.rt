//! What a session has done, and what that cost.

ghost use Rattle.std.specs.Prelude.{◌≡◌, ◌++◌, codes, IfOk, OnOk, string_bytes};
ghost use Rattle.commands.specs.Stats as spec;
ghost use Rattle.commands.specs.Stats.{number_line};

use std::alloc::Global;
use terms::memory::Memory;
use world::traffic::{Aborted, Traffic};

/// How many statements, BEGINs, COMMITs and ROLLBACKs were answered, and how many of these were refused.
#[derive(Clone, Copy)]
pub struct Stats {
    pub statements: u64,
    pub refused: u64,
}

impl Stats {
    /// Nothing was stated yet.
    pub fn none() -> Stats
        ensures { result ≡ spec.no_stats }
    {
        Stats {
            statements: 0,
            refused: 0,
        }
    }

    /// One more was answered. Numbers stop at the greatest of 64 bits.
    pub fn with_answer(self, is_refused: bool) -> Stats
        ensures { result ≡ spec.after_answer self is_refused }
    {
        Stats {
            statements: self.statements.saturating_add(1),
            refused: self.refused.saturating_add(u64::from(is_refused)),
        }
    }
}

/// These numbers, a line each.
pub fn stats_text(alloc: Global, stats: Stats, traffic: Traffic) -> Result<String, Memory>
    ensures { IfOk result (λ text. string_bytes text ≡ spec.stats_text stats traffic) }
{
    let mut text = String::new(alloc);
    put_statements(&mut text, stats)?;
    put_ends(&mut text, traffic)?;
    put_cost(&mut text, traffic)?;
    Ok(text)
}

/// What was stated.
fn put_statements(out: &mut String, stats: Stats) -> Result<(), Memory>
    ensures { OnOk result (string_bytes out.new ≡ string_bytes out.old ++ spec.statements_text stats) }
{
    put_number(out, "statements", stats.statements)?;
    put_number(out, "refused", stats.refused)?;
    Ok(())
}

/// How transactions ended.
fn put_ends(out: &mut String, traffic: Traffic) -> Result<(), Memory>
    ensures { OnOk result (string_bytes out.new ≡ string_bytes out.old ++ spec.ends_text traffic) }
{
    put_number(out, "committed", traffic.committed)?;
    put_turned_down(out, traffic.aborted)?;
    put_broken_off(out, traffic.aborted)?;
    Ok(())
}

/// How many transactions a site turned down, or their client gave up.
fn put_turned_down(out: &mut String, aborted: Aborted) -> Result<(), Memory>
    ensures { OnOk result (string_bytes out.new ≡ string_bytes out.old ++ spec.turned_down_text aborted) }
{
    put_number(out, "aborted Vote", aborted.vote)?;
    put_number(out, "aborted Refused", aborted.refused)?;
    put_number(out, "aborted GivenUp", aborted.given_up)?;
    Ok(())
}

/// How many transactions the coordinator's restart, or its store, broke off.
fn put_broken_off(out: &mut String, aborted: Aborted) -> Result<(), Memory>
    ensures { OnOk result (string_bytes out.new ≡ string_bytes out.old ++ spec.broken_off_text aborted) }
{
    put_number(out, "aborted Restart", aborted.restart)?;
    put_number(out, "aborted Store", aborted.store)?;
    Ok(())
}

/// What that cost.
fn put_cost(out: &mut String, traffic: Traffic) -> Result<(), Memory>
    ensures { OnOk result (string_bytes out.new ≡ string_bytes out.old ++ spec.cost_text traffic) }
{
    put_number(out, "letters", traffic.letters)?;
    put_number(out, "rounds", traffic.rounds)?;
    put_number(out, "forced writes", traffic.forced)?;
    Ok(())
}

fn put_number(out: &mut String, label: &str, number: u64) -> Result<(), Memory>
    ensures { OnOk result (string_bytes out.new ≡ string_bytes out.old ++ number_line label.now number) }
{
    writeln!(out, "{label} {number}")?;
    Ok(())
}
