//! Answers of statements over fragments: the rows of a plan by the parts that its fetches brought, and
//! what a statement answers and writes by these rows.
//!
//! It stands on `terms`, `meaning`, `catalog` and `plan`. The contract that the layers above use is that
//! of `work`: over every whole database of which the fetches bring what they brought, the answer and the
//! writes are those of the serial meaning. `evaluate` gives the table of a plan by its nodes, `evaluate_counted`
//! the number of steps beside it, and `finish` what a statement makes of the table; `laws::writes_lead` says
//! what the writes do to the leaves. Where a relation gets another split, `moves` gives the writes that lead
//! each leaf from what it had to what it is to have, and `laws::moves_lead` says that they do. Whether what came are parts of the fetches' columns, as `work` asks,
//! is tested by `table::are_all_parts`.
//!
//! ```text
//! let less = reduced_nodes(alloc, &catalog, &statement)?;     // DELETE FROM item WHERE zone = 3
//! let (nodes, fetches) = (less.nodes.as_slice(), less.fetches.as_slice());
//! let outcome = work(alloc, &catalog, &statement, nodes, fetches, fetched)?;
//! // outcome.answer: Answer::Changed(1); outcome.writes: Write::Del(item.1, 1)
//! ```
#![tactic(auto)]

pub mod change;
pub mod evaluate;
pub mod finish;
pub mod joined;
pub mod laws;
pub mod ledger;
pub mod merge;
pub mod moves;
pub mod pairs;
pub mod partner;
pub mod pick;
pub mod steps;
pub mod table;
pub mod unite;
pub mod work;
