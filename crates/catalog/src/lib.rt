//! Fragments: how a relation is split over sites, which rows and columns a leaf of its fragment tree
//! has, and when contents rebuild a relation.
//!
//! Stands on `terms`, `meaning`, `reader` and the kit's `toml`. The contracts that the crates above use:
//! `Catalog::read` accepts a text exactly when it is one of a catalogue whose fragment trees are all
//! valid, and otherwise tells the first gap or overlap; `Catalog::leaves_of` are a relation's leaves with
//! the steps of their paths, and `path::wanted` says which of them needed columns ask for;
//! `Catalog::place` is a row's part in a leaf's content; and the laws of valid trees, which `laws` has:
//! exactly one leaf for a row and a column, cover by the wanted leaves, and at most one relation from
//! the contents.
//!
//! ```text
//! let catalog = Catalog::read(alloc, text)?;            // or Gap: a row that no branch has
//! catalog.sites();                                      // north, south
//! let leaf = &catalog.leaves_of("item")[0];             // item.1 at site 0, where zone < 10
//! wanted(&[2], leaf.steps.as_slice());                  // true: no split by columns passes it by
//! let part = catalog.place(&row, &leaf.name)?;
//! // Some(part): the leaf has the row; None: its conditions don't hold of it
//! ```
#![tactic(auto)]

pub mod catalogue;
pub mod chain;
pub mod column_list;
mod column_texts;
pub mod exact;
pub mod fault;
mod form;
pub mod fragment;
pub mod fragment_leaf;
mod frame;
mod groups;
pub mod laws;
pub mod parts;
pub mod path;
pub mod relation;
mod sites;
pub mod split;
pub mod trail;
mod tree;
mod tree_paths;
mod wheres;
