//! Rows of a relation that are read from a file of comma-separated values.

ghost use Rattle.std.specs.Prelude.{◌≡◌, ℕ, List, IfOk, IfErr, OnOk, Ok};
ghost use Rattle.csv.specs.Reading.{ReadRecord};
ghost use Rattle.csv.specs.Records.{fields_of};
ghost use Rattle.exchange.specs.Incoming.{ExplainsNext, ExplainsOpen, ExplainsOrder, ExplainsRead, ExplainsRow, GivesNext, IsReading, KeepsColumns, Opens, reader_in};
ghost use Rattle.exchange.specs.Order.{order_of};
ghost use Rattle.exchange.specs.Row.{row_of};

use crate::line_fault::{LineFault, LineWhat};
use crate::order::order;
use crate::record::fields;
use crate::refused::{refused_field, refused_name};
use crate::row::row;
use csv::{ByteRecord, Reader, ReaderBuilder};
use meaning::schema::{Column, RelationSchema};
use std::alloc::Global;
use std::io::Read;
use terms::copy::TryCopy;
use terms::row::Row;
use terms::seq::Seq;

/// A file that is being read: a first line with the names of the relation's columns, in any order, and a line for each row.
#[derive(Drop)]
pub struct Incoming<R> {
    alloc: Global,
    columns: Seq<Column>,
    order: Vec<usize>,
    reader: Reader<R>,
    current: ByteRecord,
}

impl<R: Read + Drop> Incoming<R> {
    /// Reads the first line.
    pub fn open(
        alloc: Global,
        relation: &RelationSchema,
        input: R,
    ) -> Result<Incoming<R>, LineFault>
        ensures opens { IfOk result (λ opened. (names : List (List ℕ)) × Opens R.remaining relation.now.columns input opened names) }
        ensures why { IfErr result (λ fault. ExplainsOpen (R.remaining input) relation.now.columns fault.what) }
    {
        let mut reader = ReaderBuilder::new()
            .has_headers(false)
            .from_reader(alloc, input);
        let mut current = ByteRecord::new(alloc);
        if !read(&mut reader, &mut current)? {
            return Err(LineFault {
                line: 0,
                what: LineWhat::Empty,
                refused: None,
            });
        }
        let columns = relation.columns.copy()?;
        let order = order_by(alloc, columns.as_slice(), &current)?;
        Ok(Incoming {
            alloc,
            columns,
            order,
            reader,
            current,
        })
    }

    /// The row of the next line, or nothing at the end. A line that is no row is passed over by the next call; behind a
    /// fault of reading or of memory, in which the reader has failed, there are no more rows.
    pub fn next(&mut self) -> Result<Option<Row>, LineFault>
        ensures gives { IfOk result (λ row. IsReading (reader_in self.old) → GivesNext R.remaining self.old self.new row) }
        ensures why { IfErr result (λ fault. IsReading (reader_in self.old) → ExplainsNext R.remaining self.old self.new fault.what) }
        ensures reads { IsReading (reader_in self.old) → OnOk result (IsReading (reader_in self.new)) }
        ensures columns { KeepsColumns self.old self.new }
    {
        if !read(&mut self.reader, &mut self.current)? {
            return Ok(None);
        }
        let row = row_by(
            self.alloc,
            self.columns.as_slice(),
            self.order.as_slice(),
            &self.current,
        )?;
        Ok(Some(row))
    }
}

/// Reads the next record, if there is one.
pub(crate) fn read<R: Read>(
    reader: &mut Reader<R>,
    current: &mut ByteRecord,
) -> Result<bool, LineFault>
    ensures gives { IfOk result (λ found. IsReading reader.old → ReadRecord R.remaining reader.old reader.new found (fields_of current.new)) }
    ensures why { IfErr result (λ fault. IsReading reader.old → ExplainsRead R.remaining reader.old reader.new fault.what) }
    ensures reads { IsReading reader.old → OnOk result (IsReading reader.new) }
{
    reader.read_byte_record(current).map_err(LineFault::of_read)
}

/// Which field each column has, by the names in a record.
fn order_by(
    alloc: Global,
    columns: &[Column],
    current: &ByteRecord,
) -> Result<Vec<usize>, LineFault>
    ensures gives { IfOk result (λ order. order_of columns.now (fields_of current.now) ≡ Ok order.items) }
    ensures why { IfErr result (λ fault. ExplainsOrder columns.now (fields_of current.now) fault.what) }
{
    let names = fields(alloc, current)?;
    match order(alloc, columns, names.as_slice()) {
        Ok(order) => Ok(order),
        Err(fault) => {
            let refused = refused_name(alloc, names.as_slice(), fault)?;
            Err(LineFault::of_header(current, fault, refused))
        }
    }
}

/// The row of a record.
fn row_by(
    alloc: Global,
    columns: &[Column],
    order: &[usize],
    current: &ByteRecord,
) -> Result<Row, LineFault>
    ensures gives { IfOk result (λ row. row_of columns.now order.now (fields_of current.now) ≡ Ok row) }
    ensures why { IfErr result (λ fault. ExplainsRow columns.now order.now (fields_of current.now) fault.what) }
{
    let fields = fields(alloc, current)?;
    match row(alloc, columns, order, fields.as_slice()) {
        Ok(row) => Ok(row),
        Err(fault) => {
            let refused = refused_field(alloc, order, fields.as_slice(), fault)?;
            Err(LineFault::of_row(current, fault, refused))
        }
    }
}
