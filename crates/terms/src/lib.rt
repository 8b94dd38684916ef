//! Values, rows and the conditions on them: what the rest of fragdb speaks of.
//!
//! Stands on nothing but `std`. The contracts that the crates above use: `Conds::hold` answers whether
//! all conditions hold of a row, and `Conds::satisfiable` gives a row exactly when they hold of one.
//!
//! ```text
//! let conds = Conds::new(conds)?;           // zone = 3
//! let kept = conds.hold(&row);              // the row has 3 in the column zone
//! ```
#![tactic(auto)]

pub mod cond;
pub mod copy;
pub mod leaf;
pub mod memory;
pub mod part;
pub mod part_fault;
pub mod print;
pub mod row;
pub mod same;
pub mod satisfiable;
pub mod seq;
pub mod stored;
pub mod test_values;
pub mod text;
pub mod value;
pub mod write;
