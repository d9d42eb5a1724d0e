// A relation that several threads read, each a part of the text.
ghost use Rattle.std.specs.Prelude.{◌≡◌, ◌++◌, ◌≤◌, IfOk, IfSome};
ghost use Rattle.csv_load.specs.Records.{records_of, without_marks};
ghost use Rattle.csv_load.specs.Refusal.{IsWithin};
ghost use Rattle.csv_load.specs.Loaded.{ReadsAs};
ghost use Rattle.csv_load.specs.RowsBelow.{IsHeader, HasRows};
ghost use denote.Param.Send.{IsSync};

use crate::cutting::cut;
use crate::load::{Loaded, read_relation};
use crate::marks::after_marks;
use crate::record_reader::RecordReader;
use crate::refusal::row_refusal;
use crate::wide_records::giant_record;
use csv::ByteRecord;
use rel_base::{Limits, Relation, Row};
use std::alloc::{AllocError, Global};
use std::thread::{Threads, join};

/// The fewest bytes that are worth a thread of their own.
const BYTES_A_WORKER: usize = 65_536;

/// The relation of a file as `read_relation` gives it, read by so many workers at most: one is the thread of the caller and no other.
///
/// Each worker reads a part of the text and has a relation of its own, and the rows are then put together, which copies most of them. Where
/// a rule refuses the file it is read once more by one thread, which tells the rule. The same is done where the text cannot be cut.
pub fn read_relation_by<R: Threads + Sync>(
    rt: &R,
    alloc: Global,
    bytes: &[u8],
    limits: &Limits,
    workers: u8,
) -> Loaded
    ensures { ReadsAs limits.now (records_of bytes.now) result }
{
    read_parts(rt, alloc, bytes, limits, busy_workers(bytes, workers))
}

// How many of these workers have enough to read.
fn busy_workers(bytes: &[u8], workers: u8) -> u8 {
    (bytes.len() / BYTES_A_WORKER).min(workers as usize) as u8
}

/// The same, however short the text is.
pub(crate) fn read_parts<R: Threads + Sync>(
    rt: &R,
    alloc: Global,
    bytes: &[u8],
    limits: &Limits,
    workers: u8,
) -> Loaded
    ensures { ReadsAs limits.now (records_of bytes.now) result }
{
    if workers < 2 {
        return read_relation(alloc, bytes, limits);
    }
    match try_parts(rt, alloc, bytes, limits, workers) {
        Ok(Some(relation)) => Loaded::Read(relation),
        Ok(None) => read_relation(alloc, bytes, limits),
        Err(AllocError) => Loaded::NoMemory,
    }
}

/// The relation, where the text can be cut and no rule refuses it.
pub(crate) fn try_parts<R: Threads + Sync>(
    rt: &R,
    alloc: Global,
    bytes: &[u8],
    limits: &Limits,
    workers: u8,
) -> Result<Option<Relation>, AllocError>
    ensures { IfOk result (λ read. IfSome read (λ relation. ReadsAs limits.now (records_of bytes.now) (Loaded.Read relation))) }
{
    let text = after_marks(bytes);
    let Some(size) = cut(text, 0) else {
        return Ok(None);
    };
    let (start, rest) = text.split_at(size);
    let first = match read_relation(alloc, start, limits) {
        Loaded::Read(relation) => relation,
        Loaded::Refused { .. } => return Ok(None),
        Loaded::NoMemory => return Err(AllocError),
    };
    match rows_by(rt, alloc, rest, first.names(), limits, workers)? {
        Some(others) => put_together(rt, first, others, limits, workers),
        None => Ok(None),
    }
}

// The records of a text as rows below these names, read by so many workers at most. There is no relation where a rule refuses one.
fn rows_by<R: Threads + Sync>(
    rt: &R,
    alloc: Global,
    text: &[u8],
    names: &Row,
    limits: &Limits,
    workers: u8,
) -> Result<Option<Relation>, AllocError>
    requires unmarked { without_marks text.now ≡ text.now }
    requires header { IsHeader limits.now names.now }
    ensures { IfOk result (λ read. IfSome read (HasRows limits.now names.now (records_of text.now))) }
{
    if workers < 2 {
        return read_rows(alloc, text, names, limits);
    }
    let Some(size) = cut(text, text.len() / 2) else {
        return read_rows(alloc, text, names, limits);
    };
    let (front, back) = text.split_at(size);
    let few = workers / 2;
    let others = workers - few;
    let (first, second) = join(
        rt,
        move || -> Result<Option<Relation>, AllocError>
            requires { IsSync R.row × (without_marks front.now ≡ front.now) × IsHeader limits.now names.now }
            ensures { IfOk result (λ read. IfSome read (HasRows limits.entry.now names.entry.now (records_of front.entry.now))) }
        { rows_by(rt, alloc, front, names, limits, few) },
        move || -> Result<Option<Relation>, AllocError>
            requires { IsSync R.row × (without_marks back.now ≡ back.now) × IsHeader limits.now names.now }
            ensures { IfOk result (λ read. IfSome read (HasRows limits.entry.now names.entry.now (records_of back.entry.now))) }
        { rows_by(rt, alloc, back, names, limits, others) },
    );
    match (first?, second?) {
        (Some(one), Some(other)) => put_together(rt, one, other, limits, workers),
        _ => Ok(None),
    }
}

// The records of a text as rows below these names.
fn read_rows(
    alloc: Global,
    text: &[u8],
    names: &Row,
    limits: &Limits,
) -> Result<Option<Relation>, AllocError>
    requires { IsHeader limits.now names.now }
    ensures { IfOk result (λ read. IfSome read (HasRows limits.now names.now (records_of text.now))) }
{
    // A record that is far too wide takes no memory for its fields.
    if giant_record(text, limits.columns as usize).is_some() {
        return Ok(None);
    }
    let mut relation = Relation::without_rows(alloc, names.clone()?)?;
    let mut reader = RecordReader::new(alloc, text);
    let mut record = ByteRecord::new(alloc);
    while reader.next(&mut record)? {
        // Record 1 would be the header.
        let rec = relation.len() as u64 + 2;
        if row_refusal(limits, names.len(), rec, &record).is_some() {
            return Ok(None);
        }
        relation = relation.with_record(&record)?;
    }
    Ok(Some(relation))
}

// The relation with the rows of another, of the same names, behind its own, put together by so many workers at most. There is none where they are
// more than the limit.
fn put_together<R: Threads + Sync>(
    rt: &R,
    relation: Relation,
    others: Relation,
    limits: &Limits,
    workers: u8,
) -> Result<Option<Relation>, AllocError>
    requires same { others.names ≡ relation.names }
    requires within { IsWithin limits.now relation }
    requires others { IsWithin limits.now others }
    ensures { IfOk result (λ read. IfSome read (HasRows limits.now relation.names (relation.rows ++ others.rows))) }
{
    if relation.len() + others.len() > limits.rows as usize {
        return Ok(None);
    }
    Ok(Some(relation.with_rows(rt, others, workers)?))
}
