// A row state, kept plainly.
ghost use Rattle.std.specs.Prelude.{◌≡◌, ◌≤◌, not, nat_lt, nat_eq, length, IfOk};
ghost use Rattle.std.specs.List.{All, filter, list_any, range_with_len};
ghost use Rattle.rel_base.specs.declared.batch.Op.TheVariants.{Insert, Delete, Update};
ghost use Rattle.rel_base.specs.RowState.{IsRowState, opened, width};
ghost use Rattle.rel_base.specs.Validity as validity;
ghost use Rattle.rel_base.specs.Batches as batches;
ghost use Rattle.rel_base.specs.Batches.{IsAsWide};

use rel_base::{Batch, Limits, MOST_ROWS, Nulls, Op, Relation, Row, Why};
use std::alloc::{AllocError, Global};
use std::marker::Model;

/// The rows of a relation under batches: all rows ever given, and the numbers of the live ones. Contracts see a row state.
#[derive(Drop)]
pub struct PlainRows {
    names: Row,
    nulls: Nulls,
    limit: u32,
    given: Vec<Row>,
    live: Vec<u32>,
}

impl Model for PlainRows {
    ghost use Rattle.rel_base.specs.RowState.{RowState, IsRowState};

    ghost Value = { RowState };

    ghost view = { λ r. record { names = r.names; nulls = r.nulls; limit = r.limit; given = r.given.items; live = r.live.items } };

    ghost invariant = { λ r. IsRowState (record { names = r.names; nulls = r.nulls; limit = r.limit; given = r.given.items; live = r.live.items }) };
}

impl PlainRows {
    /// The rows of a relation as it was read, all live.
    pub fn opened(
        alloc: Global,
        nulls: Nulls,
        limits: Limits,
        relation: Relation,
    ) -> Result<PlainRows, AllocError>
        ensures { IfOk result (λ rows. rows ≡ opened nulls limits.rows relation) }
    {
        let names = relation.names().clone()?;
        let given = relation.rows(alloc)?;
        let live = numbers_to(alloc, given.len() as u32)?;
        Ok(PlainRows {
            names,
            nulls,
            limit: limits.rows,
            given,
            live,
        })
    }

    /// The names of the columns.
    pub fn names(&self) -> &Row
        ensures value { result.now ≡ self.now.names }
        ensures state { IsRowState self.now }
    {
        &self.names
    }

    /// How NULL is read.
    pub fn nulls(&self) -> Nulls
        ensures { result ≡ self.now.nulls }
    {
        self.nulls
    }

    /// All rows ever given: that with number 1 first.
    pub fn given(&self) -> &[Row]
        ensures value { result.now ≡ self.now.given }
        ensures state { IsRowState self.now }
    {
        self.given.as_slice()
    }

    /// The numbers of the live rows, ascending.
    pub fn live(&self) -> &[u32]
        ensures value { result.now ≡ self.now.live }
        ensures state { IsRowState self.now }
    {
        self.live.as_slice()
    }

    /// The rows after a batch, or the first operation that fails, counted from 1, and why. These rows stay as they are.
    ///
    /// It copies all rows and operations.
    pub fn after(
        &self,
        alloc: Global,
        batch: &Batch,
    ) -> Result<Result<PlainRows, (usize, Why)>, AllocError>
        requires { All (IsAsWide (width self.now)) batch.now }
        ensures { IfOk result (λ outcome. outcome ≡ batches.after self.now batch.now) }
    {
        let copies = batch.to_ops(alloc)?;
        let ops = copies.as_slice();
        let mut rows = self.copied(alloc)?;
        for place in 0..ops.len() {
            match rows.applied(&ops[place])? {
                Ok(changed) => rows = changed,
                Err(why) => return Ok(Err((place + 1, why))),
            }
        }
        Ok(Ok(rows))
    }

    /// A copy in which only the rows with a number below this one are live.
    pub fn below(&self, alloc: Global, bound: u32) -> Result<PlainRows, AllocError>
        ensures { IfOk result (λ rows. rows ≡ validity.below bound self.now) }
    {
        let mut rows = self.copied(alloc)?;
        rows.end_from(bound);
        Ok(rows)
    }

    fn copied(&self, alloc: Global) -> Result<PlainRows, AllocError>
        ensures { IfOk result (λ rows. rows ≡ self.now) }
    {
        Ok(PlainRows {
            names: self.names.clone()?,
            nulls: self.nulls,
            limit: self.limit,
            given: copied_rows(alloc, &self.given)?,
            live: Vec::from_slice(alloc, &self.live)?,
        })
    }

    // The rows with this number or a greater one are no longer live.
    fn end_from(&mut self, bound: u32)
        ensures { self.new ≡ validity.below bound self.old }
    {
        keep_below(&mut self.live, bound);
    }

    // The rows after an operation, or why it fails.
    fn applied(self, op: &Op) -> Result<Result<PlainRows, Why>, AllocError>
        requires { IsAsWide (width self) op.now }
        ensures { IfOk result (λ outcome. outcome ≡ batches.applied self op.now) }
    {
        match op {
            Op::Insert(row) => self.inserted(row),
            Op::Delete(number) => Ok(self.deleted(number.number())),
            Op::Update(number, row) => self.updated(number.number(), row),
        }
    }

    fn updated(self, number: u32, row: &Row) -> Result<Result<PlainRows, Why>, AllocError>
        requires { length row.now ≡ width self }
        ensures { IfOk result (λ outcome. outcome ≡ batches.applied self (Update number row.now)) }
    {
        match self.deleted(number) {
            Ok(rows) => rows.inserted(row),
            Err(why) => Ok(Err(why)),
        }
    }

    fn inserted(self, row: &Row) -> Result<Result<PlainRows, Why>, AllocError>
        requires { length row.now ≡ width self }
        ensures { IfOk result (λ outcome. outcome ≡ batches.applied self (Insert row.now)) }
    {
        let next = self.given.len() as u32 + 1;
        if next > self.limit {
            return Ok(Err(Why::Rows));
        }
        let mut rows = self;
        rows.given.push(row.clone()?)?;
        rows.live.push(next)?;
        Ok(Ok(rows))
    }

    fn deleted(self, number: u32) -> Result<PlainRows, Why>
        ensures { result ≡ batches.applied self (Delete number) }
    {
        if !has_number(&self.live, number) {
            return Err(Why::Missing);
        }
        let mut rows = self;
        remove_number(&mut rows.live, number);
        Ok(rows)
    }
}

fn numbers_to(alloc: Global, last: u32) -> Result<Vec<u32>, AllocError>
    requires { last ≤ MOST_ROWS }
    ensures { IfOk result (λ numbers. numbers.items ≡ range_with_len 1 last) }
{
    let mut numbers = Vec::new(alloc);
    for place in 0..last {
        numbers.push(place + 1)?;
    }
    Ok(numbers)
}

fn copied_rows(alloc: Global, rows: &[Row]) -> Result<Vec<Row>, AllocError>
    ensures { IfOk result (λ copy. copy.items ≡ rows.now) }
{
    let mut copy = Vec::new(alloc);
    for row in rows {
        copy.push(row.clone()?)?;
    }
    Ok(copy)
}

fn has_number(numbers: &[u32], number: u32) -> bool
    ensures { result ≡ list_any (nat_eq number) numbers.now }
{
    numbers.iter().any(|other| number == *other)
}

fn remove_number(numbers: &mut Vec<u32>, number: u32)
    ensures { numbers.new.items ≡ filter (λ i. not (nat_eq number i)) numbers.old.items }
{
    numbers.retain(|other| number != *other);
}

fn keep_below(numbers: &mut Vec<u32>, bound: u32)
    ensures { numbers.new.items ≡ filter (λ i. nat_lt i bound) numbers.old.items }
{
    numbers.retain(|number| *number < bound);
}
