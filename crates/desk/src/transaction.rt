//! What stands behind a transaction: nothing decided yet, or a commit row.

ghost use Rattle.std.specs.Prelude.{◌≡◌, IfOk};
ghost use Rattle.std.specs.List.{Contains};
ghost use Rattle.meaning.specs.Statement.{IsStatementOf};
ghost use Rattle.catalog.specs.FragmentLeaf.{schemas_of};
ghost use Rattle.catalog.specs.Relation.{catalogue_of};
ghost use Rattle.plan.specs.Reduced.{FindsAll};
ghost use Rattle.plan.specs.Postfix.{plan_of};
ghost use Rattle.plan.specs.Stated.{AreFetchesOf};
ghost use Rattle.plan.specs.Uniform.{EachRead, IsUniform};
ghost use Rattle.desk.specs.ReducedPlan.{plan_in};

use crate::fetches::Ask;
use crate::participant::Participant;
use catalog::catalogue::Catalog;
use meaning::answer::Answer;
use meaning::statement::Statement;
use plan::fetch::Fetch;
use plan::nodes::{ReducedNodes, reduced_nodes};
use plan::postfix::Node;
use std::alloc::Global;
use std::collections::BTreeMap;
use std::marker::Model;
use store::commit::Voter;
use store::name::Txn;
use terms::memory::Memory;
use terms::seq::Seq;
use terms::text::Text;
use terms::write::Write;

/// A statement whose fetches were sent, or wait for a ticket.
#[derive(Drop)]
pub(crate) struct Reading {
    /// The number of the catalogue that the statement was made for.
    pub(crate) version: u64,
    pub(crate) statement: Statement,
    pub(crate) plan: Planned,
    pub(crate) asks: Vec<Ask>,
}

/// A write that waits for a ticket of its leaf's site.
#[derive(Drop)]
pub(crate) struct Unsent {
    pub(crate) write: Write,
    pub(crate) site: Text,
}

/// A statement's answer, and those of its writes that wait for a ticket.
#[derive(Drop)]
pub(crate) struct Writing {
    pub(crate) answer: Answer,
    pub(crate) unsent: Vec<Unsent>,
}

/// Where a transaction stands.
#[derive(Drop)]
pub(crate) enum Stage {
    /// Between statements.
    Idle,
    /// Rows are waited for.
    Reading(Reading),
    /// Writes wait for a ticket.
    Writing(Writing),
    /// The first phase has begun.
    Voting,
}

/// A transaction that isn't decided: its sites in the catalogue's order, and where it stands.
#[derive(Drop)]
pub(crate) struct Undecided {
    pub(crate) participants: Seq<Participant>,
    pub(crate) stage: Stage,
    /// Whether it gives a relation another split.
    pub(crate) moves: bool,
}

/// A reduced plan, as the list of its nodes, and its fetches. It reads its fetches alone, and both sides of each of its
/// unions have the same columns.
#[derive(Drop)]
pub(crate) struct Planned {
    nodes: Vec<Node>,
    fetches: Vec<Fetch>,
}

impl Model for Planned {
    ghost use Rattle.std.specs.List.{Contains};
    ghost use Rattle.plan.specs.Postfix.{plan_of};
    ghost use Rattle.plan.specs.Uniform.{EachRead, IsUniform};
    ghost use Rattle.desk.specs.ReducedPlan.{ReducedPlan};

    ghost Value = { ReducedPlan };

    ghost view = { λ p. record { nodes = p.nodes.items; fetches = p.fetches.items } };

    ghost invariant = { λ p. EachRead (λ read. Contains p.fetches.items read) (plan_of p.nodes.items) × IsUniform (plan_of p.nodes.items) };
}

impl Planned {
    /// The reduced plan of a statement of the catalogue's schema.
    pub(crate) fn new(
        alloc: Global,
        catalog: &Catalog,
        statement: &Statement,
    ) -> Result<Planned, Memory>
        requires { IsStatementOf (schemas_of (catalogue_of catalog.now)) statement.now }
        ensures fetches { IfOk result (λ plan. AreFetchesOf (catalogue_of catalog.now) statement.now plan.fetches) }
        ensures finds { IfOk result (λ plan. FindsAll (catalogue_of catalog.now) statement.now plan.fetches (plan_in plan)) }
    {
        let reduced = reduced_nodes(alloc, catalog, statement)?;
        let ReducedNodes { nodes, fetches } = reduced;
        Ok(Planned { nodes, fetches })
    }

    /// Its nodes, each behind those that it is made of.
    pub(crate) fn nodes(&self) -> &[Node]
        ensures same { plan_of result.now ≡ plan_in self.now }
        ensures fetched { EachRead (λ read. Contains self.now.fetches read) (plan_of result.now) }
        ensures uniform { IsUniform (plan_of result.now) }
    {
        self.nodes.as_slice()
    }

    /// Its fetches.
    pub(crate) fn fetches(&self) -> &[Fetch]
        ensures { result.now ≡ self.now.fetches }
    {
        self.fetches.as_slice()
    }
}

/// A transaction with a commit row, and the acknowledgements in the order in which they came.
#[derive(Drop)]
pub(crate) struct Committed {
    pub(crate) voters: Seq<Voter>,
    pub(crate) acked: Seq<Voter>,
}

/// What stands behind a transaction that isn't unknown.
#[derive(Drop)]
pub(crate) enum TxnState {
    /// It isn't decided.
    Undecided(Undecided),
    /// It has a commit row.
    Committed(Committed),
}

pub(crate) type TxnStates = BTreeMap<Txn, TxnState>;
