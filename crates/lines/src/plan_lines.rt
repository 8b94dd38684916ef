//! A plan shown as a tree, line by line.

ghost use Rattle.std.specs.Prelude.{◌≡◌, ◌++◌, codes, drop, map, IfOk, OnOk, string_bytes};
ghost use Rattle.catalog.specs.Relation.{catalogue_of};
ghost use Rattle.plan.specs.Shape.{shape};
ghost use Rattle.reader.specs.Written.{name_in};
ghost use Rattle.lines.specs.Check.{names_of_columns, where_text};
ghost use Rattle.lines.specs.Plan.{fetch_line};
ghost use Rattle.lines.specs.Level.{line};
ghost use Rattle.lines.specs.PlanLines.{cut_text, head_line, is_join, is_union, plan_lines};
ghost use Rattle.lines.specs.PlanLines as spec;

use crate::check::{put_name, put_names, put_where};
use crate::level::{deeper, put_line};
use crate::plan_text::put_fetch;
use catalog::catalogue::Catalog;
use meaning::schema::Column;
use plan::fetch::Fetch;
use plan::plan::Plan;
use std::alloc::Global;
use terms::cond::Conds;
use terms::memory::Memory;

/// What a plan stands within, whose line it goes on with if it is of the same kind.
#[derive(Clone, Copy, PartialEq, Eq)]
pub enum Within {
    /// Anything but a union or a join.
    Nothing,
    /// A union.
    Union,
    /// A join by key.
    Join,
}

/// Whether a plan has no row whatever its leaves have.
pub fn reads_nothing(plan: &Plan) -> bool
    ensures { result ≡ spec.reads_nothing (shape plan.now) }
{
    match plan {
        Plan::Empty => true,
        Plan::Fetch(_) => false,
        Plan::Filter(_, below) => reads_nothing(below),
        Plan::Project(_, below) => reads_nothing(below),
        Plan::Union(one, other) => reads_nothing(one) && reads_nothing(other),
        Plan::KeyJoin(one, other) => reads_nothing(one) || reads_nothing(other),
        Plan::Lookup { left, right, .. } => reads_nothing(left) || reads_nothing(right),
    }
}

/// The lines of a plan of rows over these columns, each with this front or one deeper.
pub fn put_plan(
    out: &mut String,
    catalog: &Catalog,
    columns: &[Column],
    within: Within,
    front: &str,
    plan: &Plan,
) -> Result<(), Memory>
    ensures { OnOk result (string_bytes out.new ≡ string_bytes out.old ++ plan_lines (catalogue_of catalog.now) columns.now within front.now (shape plan.now)) }
{
    match plan {
        Plan::Empty => put_line(out, front, "nothing"),
        Plan::Fetch(read) => put_read(out, catalog, front, read),
        Plan::Filter(conds, below) => {
            put_rows(out, columns, front, conds)?;
            let deep = deeper(*out.allocator(), front)?;
            put_plan(out, catalog, columns, Within::Nothing, deep.as_str(), below)
        }
        Plan::Project(places, below) => {
            put_cut(out, columns, front, places.as_slice())?;
            let deep = deeper(*out.allocator(), front)?;
            put_plan(out, catalog, columns, Within::Nothing, deep.as_str(), below)
        }
        Plan::Union(one, other) => {
            if reads_nothing(other) {
                return put_plan(out, catalog, columns, within, front, one);
            }
            if reads_nothing(one) {
                return put_plan(out, catalog, columns, within, front, other);
            }
            let goes_on = within == Within::Union;
            put_head(out, goes_on, front, "union")?;
            let deep = inner(*out.allocator(), goes_on, front)?;
            put_plan(out, catalog, columns, Within::Nothing, deep.as_str(), one)?;
            put_plan(out, catalog, columns, Within::Union, deep.as_str(), other)
        }
        Plan::KeyJoin(one, other) => {
            let goes_on = within == Within::Join;
            put_head(out, goes_on, front, "join by key")?;
            let deep = inner(*out.allocator(), goes_on, front)?;
            put_plan(out, catalog, columns, Within::Nothing, deep.as_str(), one)?;
            put_plan(out, catalog, columns, Within::Join, deep.as_str(), other)
        }
        Plan::Lookup {
            col,
            width,
            left,
            right,
        } => {
            put_lookup(out, columns, front, *col)?;
            let deep = deeper(*out.allocator(), front)?;
            put_plan(out, catalog, columns, Within::Nothing, deep.as_str(), left)?;
            let others = behind(columns, *width);
            put_plan(out, catalog, others, Within::Nothing, deep.as_str(), right)
        }
    }
}

/// The columns from a place on.
fn behind(columns: &[Column], width: usize) -> &[Column]
    ensures { result.now ≡ drop width columns.now }
{
    columns.get(width..).unwrap_or(&[])
}

/// The read of a leaf, in a line.
fn put_read(out: &mut String, catalog: &Catalog, front: &str, read: &Fetch) -> Result<(), Memory>
    ensures { OnOk result (string_bytes out.new ≡ string_bytes out.old ++ front.now ++ codes "fetch " ++ fetch_line (catalogue_of catalog.now) read.now) }
{
    out.push_str(front)?;
    out.push_str("fetch ")?;
    put_fetch(out, catalog, read)
}

/// The line above rows that meet conditions.
fn put_rows(out: &mut String, columns: &[Column], front: &str, conds: &Conds) -> Result<(), Memory>
    ensures { OnOk result (string_bytes out.new ≡ string_bytes out.old ++ line front.now (codes "rows" ++ where_text (names_of_columns columns.now) conds.now)) }
{
    out.push_str(front)?;
    out.push_str("rows")?;
    put_where(out, columns, conds)?;
    out.push('\n')?;
    Ok(())
}

/// The line above rows that are cut to columns.
fn put_cut(
    out: &mut String,
    columns: &[Column],
    front: &str,
    places: &[usize],
) -> Result<(), Memory>
    ensures { OnOk result (string_bytes out.new ≡ string_bytes out.old ++ line front.now (cut_text (names_of_columns columns.now) places.now)) }
{
    out.push_str(front)?;
    if places.is_empty() {
        out.push_str("keys")?;
    } else {
        out.push_str("columns ")?;
        put_names(out, columns, places)?;
    }
    out.push('\n')?;
    Ok(())
}

/// The line above two plans of which rows are put together by a column.
fn put_lookup(out: &mut String, columns: &[Column], front: &str, col: usize) -> Result<(), Memory>
    ensures { OnOk result (string_bytes out.new ≡ string_bytes out.old ++ line front.now (codes "look up by " ++ name_in (names_of_columns columns.now) col)) }
{
    out.push_str(front)?;
    out.push_str("look up by ")?;
    put_name(out, columns, col)?;
    out.push('\n')?;
    Ok(())
}

/// A line above plans that are united, unless they go on with others.
fn put_head(out: &mut String, goes_on: bool, front: &str, text: &str) -> Result<(), Memory>
    ensures { OnOk result (string_bytes out.new ≡ string_bytes out.old ++ head_line goes_on front.now text.now) }
{
    if goes_on {
        return Ok(());
    }
    put_line(out, front, text)
}

/// The front of what is united.
fn inner(alloc: Global, goes_on: bool, front: &str) -> Result<String, Memory>
    ensures { IfOk result (λ text. string_bytes text ≡ spec.inner goes_on front.now) }
{
    if goes_on {
        Ok(String::from_str(alloc, front)?)
    } else {
        deeper(alloc, front)
    }
}
