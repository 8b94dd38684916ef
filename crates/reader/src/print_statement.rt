//! The text of statements: as `read` takes it, with keywords in capitals.

ghost use Rattle.std.specs.Prelude.{◌≡◌, ◌++◌, codes, map, flat_map, IfOk, OnOk, string_bytes};
ghost use Rattle.meaning.specs.declared.statement.Assigned.TheVariants.{Sum};
ghost use Rattle.reader.specs.Columns.{column_at};
ghost use Rattle.reader.specs.Grammar.{comparison_sign};
ghost use Rattle.reader.specs.Sign.{sign_text};
ghost use Rattle.reader.specs.Written.{name_in, column_in, column_of_joined, qualified_column, constant_as, condition_as, conditions_as, join_as, select_as, insert_as, assigned_as, assignment_as, update_as, delete_as};
ghost use Rattle.reader.specs.PrintStatement.{separated_bytes, column_bytes, constant_bytes, constants_bytes, condition_bytes, conditions_bytes, where_bytes, join_bytes, select_bytes, insert_bytes, assigned_bytes, assignment_bytes, update_bytes, delete_bytes, refragment_bytes, statement_bytes, conds_bytes, part_bytes};

use crate::print_constant::PrintedConstant;
use crate::separated::{Printer, put_separated};
use meaning::schema::Column;
use meaning::statement::{
    Assigned, Assignment, Delete, Insert, Join, Refragment, Select, Source, Statement, Update,
};
use std::alloc::Global;
use terms::cond::{Cmp, Cond, Conds};
use terms::memory::Memory;
use terms::text::Text;
use terms::value::Value;

/// What stands between the items of a list, but for conditions.
const SEPARATOR: &str = ", ";

/// A statement, as it is read again.
pub fn print(alloc: Global, statement: &Statement) -> Result<String, Memory>
    ensures { IfOk result (λ text. string_bytes text ≡ statement_bytes statement.now) }
{
    let mut out = String::new(alloc);
    match statement {
        Statement::Select(select) => put_select(&mut out, select)?,
        Statement::Insert(insert) => put_insert(&mut out, insert)?,
        Statement::Update(update) => put_update(&mut out, update)?,
        Statement::Delete(delete) => put_delete(&mut out, delete)?,
        Statement::Refragment(refragment) => put_refragment(&mut out, refragment)?,
    }
    Ok(out)
}

/// Conditions on these columns, as they are read again.
pub fn print_conds(alloc: Global, conds: &Conds, names: &[Column]) -> Result<String, Memory>
    ensures { IfOk result (λ text. string_bytes text ≡ conds_bytes (map (λ column. column.name) names.now) conds.now) }
{
    let mut out = String::new(alloc);
    put_conditions(&mut out, &Columns::OfSchema(names), conds.as_slice())?;
    Ok(out)
}

/// The values of a part, as constants.
pub fn print_part(alloc: Global, part: &[Value]) -> Result<String, Memory>
    ensures { IfOk result (λ text. string_bytes text ≡ part_bytes part.now) }
{
    let mut out = String::new(alloc);
    put_constants(&mut out, part)?;
    Ok(out)
}

/// The columns over which places are counted.
#[derive(Clone, Copy)]
enum Columns<'a> {
    /// Those of a schema, by their plain names.
    OfSchema(&'a [Column]),
    /// Those of one relation, by their plain names.
    OfOne(&'a Source),
    /// Those of a relation and of all that are joined with it, with their relations' names: those of each are counted on
    /// from all before them.
    OfJoined(&'a Source, &'a [Join]),
}

impl<'a> Columns<'a> {
    /// Those of a select.
    fn of_select(select: &'a Select) -> Columns<'a>
        ensures { column_at result ≡ column_in select.now.from select.now.joins }
    {
        let joins = select.joins.as_slice();
        if joins.is_empty() {
            Columns::OfOne(&select.from)
        } else {
            Columns::OfJoined(&select.from, joins)
        }
    }

    /// The column at a place.
    fn put_column(&self, out: &mut String, place: usize) -> Result<(), Memory>
        ensures { OnOk result (string_bytes out.new ≡ string_bytes out.old ++ column_bytes (column_at self.now place)) }
    {
        match self {
            Columns::OfSchema(columns) => {
                if let Some(column) = columns.get(place) {
                    out.push_str(column.name.as_str())?;
                }
                Ok(())
            }
            Columns::OfOne(source) => put_name(out, source.columns.as_slice(), place),
            Columns::OfJoined(from, joins) => {
                let (source, place) = relation_at(from, joins, place);
                put_qualified(out, source, place)
            }
        }
    }
}

impl Printer<usize> for Columns<'_> {
    ghost bytes = { λ columns place. column_bytes (column_at columns place) };

    fn put(&self, out: &mut String, place: &usize) -> Result<(), Memory> {
        self.put_column(out, *place)
    }
}

/// Conditions on columns.
#[derive(Clone, Copy)]
struct Conditions<'a>(Columns<'a>);

impl Printer<Cond> for Conditions<'_> {
    ghost bytes = { λ conditions cond. condition_bytes (condition_as (column_at conditions.0) cond) };

    fn put(&self, out: &mut String, cond: &Cond) -> Result<(), Memory> {
        put_condition(out, &self.0, cond)
    }
}

/// Values as constants.
#[derive(Clone, Copy)]
struct Constants;

impl Printer<Value> for Constants {
    ghost bytes = { λ _ value. constant_bytes (constant_as value) };

    fn put(&self, out: &mut String, value: &Value) -> Result<(), Memory> {
        put_constant(out, value)
    }
}

/// Assignments to columns of these names.
#[derive(Clone, Copy)]
struct Assignments<'a>(&'a [Text]);

impl Printer<Assignment> for Assignments<'_> {
    ghost bytes = { λ assignments set. assignment_bytes (assignment_as assignments.0.now set) };

    fn put(&self, out: &mut String, set: &Assignment) -> Result<(), Memory> {
        put_assignment(out, self.0, set)
    }
}

/// The name at a place.
fn put_name(out: &mut String, names: &[Text], place: usize) -> Result<(), Memory>
    ensures { OnOk result (string_bytes out.new ≡ string_bytes out.old ++ name_in names.now place) }
{
    if let Some(name) = names.get(place) {
        out.push_str(name.as_str())?;
    }
    Ok(())
}

/// A column with its relation's name.
fn put_qualified(out: &mut String, source: &Source, place: usize) -> Result<(), Memory>
    ensures { OnOk result (string_bytes out.new ≡ string_bytes out.old ++ column_bytes (qualified_column source.now place)) }
{
    out.push_str(source.name.as_str())?;
    out.push('.')?;
    put_name(out, source.columns.as_slice(), place)
}

/// The relation of a column, among one and those that are joined with it, and its place there.
fn relation_at<'a>(from: &'a Source, joins: &'a [Join], place: usize) -> (&'a Source, usize)
    ensures { qualified_column result.0.now result.1 ≡ column_of_joined from.now joins.now place }
{
    let mut source = from;
    let mut place = place;
    for join in joins {
        let Some(behind) = place.checked_sub(source.columns.as_slice().len()) else {
            return (source, place);
        };
        source = &join.relation;
        place = behind;
    }
    (source, place)
}

fn put_select(out: &mut String, select: &Select) -> Result<(), Memory>
    ensures { OnOk result (string_bytes out.new ≡ string_bytes out.old ++ select_bytes (select_as select.now)) }
{
    let columns = Columns::of_select(select);
    out.push_str("SELECT ")?;
    put_list(out, &columns, select.columns.as_slice())?;
    write!(out, " FROM {}", select.from.name)?;
    put_joins(out, &columns, select.joins.as_slice())?;
    put_where(out, &columns, select.conds.as_slice())
}

fn put_list(out: &mut String, columns: &Columns<'_>, places: &[usize]) -> Result<(), Memory>
    ensures { OnOk result (string_bytes out.new ≡ string_bytes out.old ++ separated_bytes column_bytes (codes ", ") (map (column_at columns.now) places.now)) }
{
    put_separated(out, columns, SEPARATOR, places)
}

/// The JOINs, if there are some.
fn put_joins(out: &mut String, columns: &Columns<'_>, joins: &[Join]) -> Result<(), Memory>
    ensures { OnOk result (string_bytes out.new ≡ string_bytes out.old ++ flat_map join_bytes (map (join_as (column_at columns.now)) joins.now)) }
{
    for join in joins {
        put_join(out, columns, join)?;
    }
    Ok(())
}

fn put_join(out: &mut String, columns: &Columns<'_>, join: &Join) -> Result<(), Memory>
    ensures { OnOk result (string_bytes out.new ≡ string_bytes out.old ++ join_bytes (join_as (column_at columns.now) join.now)) }
{
    write!(out, " JOIN {} ON ", join.relation.name)?;
    columns.put_column(out, join.col)?;
    out.push_str(" = ")?;
    put_qualified(out, &join.relation, 0)
}

/// A WHERE, if there are conditions.
fn put_where(out: &mut String, columns: &Columns<'_>, conds: &[Cond]) -> Result<(), Memory>
    ensures { OnOk result (string_bytes out.new ≡ string_bytes out.old ++ where_bytes (conditions_as (column_at columns.now) conds.now)) }
{
    if conds.is_empty() {
        return Ok(());
    }
    out.push_str(" WHERE ")?;
    put_conditions(out, columns, conds)
}

fn put_conditions(out: &mut String, columns: &Columns<'_>, conds: &[Cond]) -> Result<(), Memory>
    ensures { OnOk result (string_bytes out.new ≡ string_bytes out.old ++ conditions_bytes (conditions_as (column_at columns.now) conds.now)) }
{
    put_separated(out, &Conditions(*columns), " AND ", conds)
}

fn put_condition(out: &mut String, columns: &Columns<'_>, cond: &Cond) -> Result<(), Memory>
    ensures { OnOk result (string_bytes out.new ≡ string_bytes out.old ++ condition_bytes (condition_as (column_at columns.now) cond.now)) }
{
    columns.put_column(out, cond.col)?;
    out.push(' ')?;
    put_comparison(out, cond.cmp)?;
    out.push(' ')?;
    put_constant(out, &cond.value)
}

fn put_comparison(out: &mut String, comparison: Cmp) -> Result<(), Memory>
    ensures { OnOk result (string_bytes out.new ≡ string_bytes out.old ++ sign_text (comparison_sign comparison)) }
{
    out.push_str(comparison_text(comparison))?;
    Ok(())
}

fn comparison_text(comparison: Cmp) -> &'static str
    ensures { result.now ≡ sign_text (comparison_sign comparison) }
{
    match comparison {
        Cmp::Eq => "=",
        Cmp::Ne => "<>",
        Cmp::Lt => "<",
        Cmp::Le => "<=",
        Cmp::Gt => ">",
        Cmp::Ge => ">=",
    }
}

fn put_insert(out: &mut String, insert: &Insert) -> Result<(), Memory>
    ensures { OnOk result (string_bytes out.new ≡ string_bytes out.old ++ insert_bytes (insert_as insert.now)) }
{
    write!(out, "INSERT INTO {} VALUES (", insert.into)?;
    put_constants(out, insert.row.values())?;
    out.push(')')?;
    Ok(())
}

fn put_constants(out: &mut String, values: &[Value]) -> Result<(), Memory>
    ensures { OnOk result (string_bytes out.new ≡ string_bytes out.old ++ constants_bytes (map constant_as values.now)) }
{
    put_separated(out, &Constants, SEPARATOR, values)
}

fn put_constant(out: &mut String, value: &Value) -> Result<(), Memory>
    ensures { OnOk result (string_bytes out.new ≡ string_bytes out.old ++ constant_bytes (constant_as value.now)) }
{
    write!(out, "{}", PrintedConstant(value))?;
    Ok(())
}

fn put_update(out: &mut String, update: &Update) -> Result<(), Memory>
    ensures { OnOk result (string_bytes out.new ≡ string_bytes out.old ++ update_bytes (update_as update.now)) }
{
    write!(out, "UPDATE {} SET ", update.relation.name)?;
    put_assignments(
        out,
        update.relation.columns.as_slice(),
        update.sets.as_slice(),
    )?;
    put_where(
        out,
        &Columns::OfOne(&update.relation),
        update.conds.as_slice(),
    )
}

fn put_assignments(out: &mut String, names: &[Text], sets: &[Assignment]) -> Result<(), Memory>
    ensures { OnOk result (string_bytes out.new ≡ string_bytes out.old ++ separated_bytes assignment_bytes (codes ", ") (map (assignment_as names.now) sets.now)) }
{
    put_separated(out, &Assignments(names), SEPARATOR, sets)
}

fn put_assignment(out: &mut String, names: &[Text], set: &Assignment) -> Result<(), Memory>
    ensures { OnOk result (string_bytes out.new ≡ string_bytes out.old ++ assignment_bytes (assignment_as names.now set.now)) }
{
    put_name(out, names, set.col)?;
    out.push_str(" = ")?;
    match &set.value {
        Assigned::Constant(value) => put_constant(out, value),
        Assigned::Sum { col, number } => put_sum(out, names, *col, *number),
    }
}

/// A column and a number added, or its magnitude taken away where it is negative.
fn put_sum(out: &mut String, names: &[Text], col: usize, number: i64) -> Result<(), Memory>
    ensures { OnOk result (string_bytes out.new ≡ string_bytes out.old ++ assigned_bytes (assigned_as names.now (Sum col number))) }
{
    put_name(out, names, col)?;
    out.push_str(if number < 0 { " - " } else { " + " })?;
    write!(out, "{}", number.unsigned_abs())?;
    Ok(())
}

fn put_delete(out: &mut String, delete: &Delete) -> Result<(), Memory>
    ensures { OnOk result (string_bytes out.new ≡ string_bytes out.old ++ delete_bytes (delete_as delete.now)) }
{
    write!(out, "DELETE FROM {}", delete.relation.name)?;
    put_where(
        out,
        &Columns::OfOne(&delete.relation),
        delete.conds.as_slice(),
    )
}

fn put_refragment(out: &mut String, refragment: &Refragment) -> Result<(), Memory>
    ensures { OnOk result (string_bytes out.new ≡ string_bytes out.old ++ refragment_bytes refragment.now.relation.name) }
{
    write!(out, "REFRAGMENT {}", refragment.relation.name)?;
    Ok(())
}
