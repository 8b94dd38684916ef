//! The conditions of the branches of a row split, and whether they are exact.

ghost use Rattle.std.specs.Prelude.{◌≡◌, ◌++◌, true, map, IfOk, IfErr, OnOk};
ghost use Rattle.reader.specs.Breaks.{SomeOf};
ghost use Rattle.std.specs.List.{AllByRecursion};
ghost use Rattle.terms.specs.Cond.{IsCondOf};
ghost use Rattle.toml.specs.View.{view};
ghost use Rattle.catalog.specs.Cells.{AllFit, conds_of_split};
ghost use Rattle.reader.specs.Scope.{types};
ghost use Rattle.catalog.specs.Describes.{kinds_in, Each, IsWhereOn, IsWhere, HasFewCells, visible};
ghost use Rattle.catalog.specs.Frame.{frame_of};
ghost use Rattle.catalog.specs.Refuses as spec;
ghost use Rattle.catalog.specs.Inexact as inexact;
ghost use Rattle.catalog.specs.Inexact.{shown_here, shown_from};
ghost use Rattle.catalog.specs.NodeBreaks.{WhereBreaks};
ghost use Rattle.catalog.specs.Refuses.{RefusesWhere, RefusesConds, RefusesSplit, is_of_text};
ghost use Rattle.catalog.specs.Valid.{AreExact};

use crate::exact::{Exactness, conds_of_split, try_cells};
use crate::fault::{Cell, Rule, Shown};
use crate::form::text_at;
use crate::frame::Frame;
use crate::trail::{ListItem, Trail};
use meaning::schema::Column;
use reader::read_conds::read_conds;
use std::alloc::Global;
use terms::cond::{Cond, Conds};
use terms::copy::TryCopy;
use terms::memory::Memory;
use terms::row::Row;
use terms::seq::Seq;
use terms::value::Value;

/// The conditions of each branch, from its `where`.
#[tactic(auto, using(crate::proofs::BranchConds::types_visible))]
pub(crate) fn branch_conds(
    frame: &Frame<'_>,
    within: &[usize],
    nodes: &[toml::Value],
    trail: &mut Trail,
) -> Result<Vec<Conds>, Rule>
    ensures found { IfOk result (λ conds. Each (IsWhere (frame_of frame.now) within.now) (map view nodes.now) conds.items) }
    ensures fit { IfOk result (λ conds. AllByRecursion (λ cs. AllByRecursion (IsCondOf (kinds_in (frame_of frame.now))) cs) conds.items) }
    ensures none { IfErr result (λ rule. RefusesConds (visible within.now (frame_of frame.now).columns) (map view nodes.now) rule) }
    ensures breaks { IfErr result (λ rule. is_of_text rule ≡ true → SomeOf (WhereBreaks rule (visible within.now (frame_of frame.now).columns)) (map view nodes.now)) }
{
    let columns = frame.visible(within)?;
    conds_on(frame.alloc, columns.as_slice(), nodes, trail)
}

/// The conditions of each branch on these columns.
fn conds_on(
    alloc: Global,
    columns: &[Column],
    nodes: &[toml::Value],
    trail: &mut Trail,
) -> Result<Vec<Conds>, Rule>
    ensures found { IfOk result (λ conds. Each (IsWhereOn columns.now) (map view nodes.now) conds.items) }
    ensures fit { IfOk result (λ conds. AllByRecursion (λ cs. AllByRecursion (IsCondOf (types columns.now)) cs) conds.items) }
    ensures none { IfErr result (λ rule. RefusesConds columns.now (map view nodes.now) rule) }
    ensures breaks { IfErr result (λ rule. is_of_text rule ≡ true → SomeOf (WhereBreaks rule columns.now) (map view nodes.now)) }
{
    let mut conds = Vec::new(alloc);
    for node in nodes {
        trail.enter(ListItem::Branch(conds.len()));
        conds.push(where_of(alloc, columns, node)?)?;
        trail.leave();
    }
    Ok(conds)
}

fn where_of(alloc: Global, columns: &[Column], node: &toml::Value) -> Result<Conds, Rule>
    ensures found { IfOk result (λ conds. IsWhereOn columns.now (view node.now) conds) }
    ensures fit { IfOk result (λ conds. AllByRecursion (IsCondOf (types columns.now)) conds) }
    ensures none { IfErr result (λ rule. RefusesWhere columns.now (view node.now) rule) }
    ensures breaks { IfErr result (λ rule. is_of_text rule ≡ true → WhereBreaks rule columns.now (view node.now)) }
{
    let Some(text) = text_at("where", node) else {
        return Err(Rule::Field);
    };
    match read_conds(alloc, text, columns) {
        Ok(conds) => Ok(conds),
        Err(fault) => Err(rule_of(fault.rule())),
    }
}

/// The catalogue's rule that stands for one of the reader.
fn rule_of(rule: reader::fault::Rule) -> Rule
    ensures { result ≡ spec.rule_of rule }
{
    match rule {
        reader::fault::Rule::NoColumn => Rule::ColumnAbsent,
        reader::fault::Rule::WrongType => Rule::WrongType,
        reader::fault::Rule::Limit => Rule::Limit,
        reader::fault::Rule::Memory => Rule::Memory,
        reader::fault::Rule::TooLong
        | reader::fault::Rule::Character
        | reader::fault::Rule::Syntax
        | reader::fault::Rule::NoRelation
        | reader::fault::Rule::Ambiguous
        | reader::fault::Rule::KeyColumn
        | reader::fault::Rule::JoinNotKey
        | reader::fault::Rule::Count => Rule::Field,
    }
}

/// Refuses a row split that is not exact, or has too many cells.
pub(crate) fn require_exact(frame: &Frame<'_>, way: &[Cond], branches: &[Conds]) -> Result<(), Rule>
    requires { AllFit (kinds_in (frame_of frame.now)) way.now branches.now }
    ensures exact { OnOk result (AreExact (kinds_in (frame_of frame.now)) way.now branches.now) }
    ensures few { OnOk result (HasFewCells (kinds_in (frame_of frame.now)) way.now branches.now) }
    ensures none { IfErr result (λ rule. RefusesSplit (frame_of frame.now) way.now branches.now rule) }
{
    let kinds = frame.kinds()?;
    match try_cells(frame.alloc, kinds.as_slice(), way, branches)? {
        Exactness::Exact => Ok(()),
        Exactness::Gap(row) => Err(Rule::Gap(cell(frame, way, branches, row)?)),
        Exactness::Overlap(row) => Err(Rule::Overlap(cell(frame, way, branches, row)?)),
        Exactness::TooMany => Err(Rule::Limit),
    }
}

/// A cell, with the values in the columns that the conditions name.
fn cell(frame: &Frame<'_>, way: &[Cond], branches: &[Conds], row: Row) -> Result<Cell, Memory>
    ensures row { IfOk result (λ cell. cell.row ≡ row) }
    ensures shown { IfOk result (λ cell. cell.shown ≡ shown_from 0 (conds_of_split way.now branches.now) (frame_of frame.now).columns row) }
{
    let conds = conds_of_split(frame.alloc, way, branches)?;
    let shown = shown_values(frame.alloc, conds.as_slice(), frame.columns, row.values())?;
    let shown = Seq::new(shown);
    Ok(Cell { row, shown })
}

fn shown_values(
    alloc: Global,
    conds: &[Cond],
    columns: &[Column],
    values: &[Value],
) -> Result<Vec<Shown>, Memory>
    ensures { IfOk result (λ shown. shown.items ≡ shown_from 0 conds.now columns.now values.now) }
{
    let mut shown = Vec::new(alloc);
    for place in 0..columns.len().min(values.len()) {
        push_shown(&mut shown, place, conds, &columns[place], &values[place])?;
    }
    Ok(shown)
}

fn push_shown(
    shown: &mut Vec<Shown>,
    place: usize,
    conds: &[Cond],
    column: &Column,
    value: &Value,
) -> Result<(), Memory>
    ensures { OnOk result (shown.new.items ≡ shown.old.items ++ shown_here place conds.now column.now value.now) }
{
    if is_named_by(conds, place) {
        let column = column.name.copy()?;
        let value = value.copy()?;
        shown.push(Shown { column, value })?;
    }
    Ok(())
}

fn is_named_by(conds: &[Cond], place: usize) -> bool
    ensures { result ≡ inexact.is_named_by conds.now place }
{
    conds.iter().any(|cond| cond.col == place)
}
