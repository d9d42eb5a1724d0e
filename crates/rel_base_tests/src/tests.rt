ghost use Rattle.std.specs.Prelude.{◌≡◌, ◌∷◌, []};
ghost use Rattle.rel_base.specs.declared.nulls.Nulls.TheVariants.{Equal, Distinct};
ghost use Rattle.rel_base.specs.Covers.{covers};
ghost use Rattle.rel_base.specs.Worked.{letters, blanks};

use col_set::{ColSet, Target};
use csv::{ByteRecord, ReaderBuilder};
use rel_base::{
    Batch, Cell, Change, Codes, Covers, Cursor, Fd, Job, Limits, Name, Nulls, Op, PackedCodes,
    Relation, Row, RowNo, RowPlace, Snapshot, Why,
};
use std::alloc::{AllocError, Global};
use std::hash::{DefaultHasher, Hash, Hasher};
use std::process::Abort;
use std::sync::Arc;
use std::test::Fail;
use std::thread::{Threads, join};

// The one minimal key of the columns k and v with the rows (1, x), (1, y) and (2, z).
fn letters_key() -> ColSet
    ensures { (covers letters).keys ≡ result ∷ [] }
{
    ColSet::empty().with(1)
}

// Its one minimal dependency.
fn letters_fd() -> Fd
    ensures { (covers letters).fds ≡ result ∷ [] }
{
    Fd {
        left: ColSet::all(2).without(0),
        right: 0,
    }
}

// The first minimal dependency of the rows (NULL, 1) and (NULL, 2), where NULL equals NULL.
fn blanks_fd() -> Fd
    ensures { (covers (blanks Equal)).fds ≡ result ∷ [] }
{
    Fd {
        left: ColSet::empty(),
        right: 0,
    }
}

// Their minimal keys, where NULL agrees with nothing.
fn blanks_keys() -> (ColSet, ColSet)
    ensures { (covers (blanks Distinct)).keys ≡ result.0 ∷ result.1 ∷ [] }
{
    (ColSet::all(1), ColSet::all(2).without(0))
}

#[test]
fn the_covers_of_small_relations_compute(rt: HostRuntime) {
    assert!(rt; letters_key() == letters_fd().left);
    assert!(rt; letters_key().has(1) && !letters_key().has(0));
    assert!(rt; blanks_fd().left == ColSet::empty() && blanks_fd().right == 0);
    assert!(rt; blanks_keys().0.has(0) && blanks_keys().1.has(1));
}

// Asserts that these are the cells of the row.
fn are_its_cells(rt: &impl Abort, row: &Row) {
    assert_eq!(rt; row.len(), 3);
    assert!(rt; row.cell(0) == b"1".as_slice());
    assert!(rt; row.cell(1).is_empty());
    assert!(rt; row.cell(2) == b"Berlin".as_slice());
}

// Asserts that a clone of the row has them.
fn clone_has_its_cells(rt: &impl Abort, row: &Row) -> Result<(), AllocError> {
    let again = row.clone()?;
    assert!(rt; again.len() == 3);
    assert!(rt; again.cell(2) == b"Berlin".as_slice());
    Ok(())
}

#[test]
fn a_row_packs_its_cells(rt: HostRuntime) -> Result<(), Fail> {
    let cells: [&[u8]; 3] = [b"1", b"", b"Berlin"];
    let row = Row::copied(rt.alloc(), &cells)?;
    are_its_cells(&rt, &row);
    clone_has_its_cells(&rt, &row)?;
    assert!(rt; Row::of(row.into_record()).len() == 3);
    Ok(())
}

// The first record of a text.
fn first_row(alloc: Global, text: &[u8]) -> Result<Row, Fail> {
    let mut reader = ReaderBuilder::new()
        .has_headers(false)
        .from_reader(alloc, text);
    let mut record = ByteRecord::new(alloc);
    match reader.read_byte_record(&mut record) {
        Ok(_) => Ok(Row::of(record)),
        Err(_) => Err(Fail::new("no record")),
    }
}

fn hash_of(row: &Row) -> u64 {
    let mut state = DefaultHasher::new();
    row.hash(&mut state);
    state.finish()
}

fn are_equal(row: &Row, other: &Row) -> bool {
    row == other && hash_of(row) == hash_of(other)
}

fn are_apart(row: &Row, other: &Row) -> bool {
    row != other && hash_of(row) != hash_of(other)
}

// Whether the row equals one that was read with quotes.
fn equals_a_quoted_one(alloc: Global, row: &Row) -> Result<bool, Fail> {
    Ok(are_equal(row, &first_row(alloc, b"\"ab\",\"\",c\n")?))
}

// The same bytes in a row, cut into cells in two ways.
static CELLS: [&[u8]; 3] = [b"ab", b"", b"c"];

static OTHER_CELLS: [&[u8]; 3] = [b"a", b"", b"bc"];

// Whether the row is apart from one of the same bytes.
fn is_apart_from_same_bytes(alloc: Global, row: &Row) -> Result<bool, AllocError> {
    Ok(are_apart(row, &Row::copied(alloc, &OTHER_CELLS)?))
}

// Whether it is another than a shorter one.
fn is_not_a_shorter_one(alloc: Global, row: &Row) -> Result<bool, AllocError> {
    Ok(*row != Row::copied(alloc, &OTHER_CELLS[..2])?)
}

#[test]
fn rows_are_equal_by_their_cells(rt: HostRuntime) -> Result<(), Fail> {
    let row = Row::copied(rt.alloc(), &CELLS)?;
    assert!(rt; equals_a_quoted_one(rt.alloc(), &row)?);
    assert!(rt; is_apart_from_same_bytes(rt.alloc(), &row)?);
    assert!(rt; is_not_a_shorter_one(rt.alloc(), &row)?);
    Ok(())
}

#[test]
fn codes_stand_behind_shared_ones(rt: HostRuntime) -> Result<(), Fail> {
    let alloc = rt.alloc();
    let shared = Arc::new(alloc, PackedCodes::of(alloc, vec![in alloc; 7u32, 8]?)?)?;
    let codes = Codes::behind(shared, vec![in alloc; 9u32]?);
    assert!(rt; codes.len() == 3 && !codes.is_empty());
    assert!(rt; codes.get(0) == 7 && codes.get(1) == 8 && codes.get(2) == 9);
    assert!(rt; codes.parts().0.len() == 2 && codes.parts().1.len() == 1);
    Ok(())
}

// The greatest codes of each width, and the least of the next one.
static GREATEST_CODES: [u32; 5] = [255, 256, 65_535, 65_536, u32::MAX];

// Whether a code reads the same packed, whole and in a part.
fn is_told_packed(alloc: Global, code: u32) -> Result<bool, AllocError> {
    let packed = PackedCodes::of(alloc, vec![in alloc; 0, code, 7]?)?;
    let lent = packed.lend();
    let part = lent.between(1, 3);
    Ok(lent.get(1) == code && lent.get(2) == 7 && part.len() == 2 && part.get(0) == code)
}

// How many bytes the widest of the codes takes.
fn width_of(codes: &PackedCodes) -> u8 {
    match codes {
        PackedCodes::Bytes(_) => 1,
        PackedCodes::Words(_) => 2,
        PackedCodes::Full(_) => 4,
    }
}

#[test]
fn codes_are_packed_by_the_greatest(rt: HostRuntime) -> Result<(), Fail> {
    for code in GREATEST_CODES {
        assert!(rt; is_told_packed(rt.alloc(), code)?);
    }
    Ok(())
}

#[test]
fn codes_take_as_few_bytes_as_they_need(rt: HostRuntime) -> Result<(), Fail> {
    for (code, width) in [(255, 1), (256, 2), (65_535, 2), (65_536, 4)] {
        let codes = vec![in rt.alloc(); 1, code]?;
        assert!(rt; width_of(&PackedCodes::of(rt.alloc(), codes)?) == width);
    }
    Ok(())
}

// A snapshot of one column and one row.
fn one_row(alloc: Global) -> Result<Snapshot, AllocError> {
    let codes = vec![in alloc; Codes::of(vec![in alloc; 0u32]?)]?;
    Ok(Snapshot::of(codes, vec![in alloc; true]?, RowNo::of(2)))
}

// A job on it.
fn whole_job(snapshot: Arc<Snapshot>) -> Job {
    Job::of(
        Target::RowId,
        ColSet::empty(),
        RowNo::first(),
        RowNo::of(2),
        snapshot,
    )
}

// A batch of one operation.
fn one_delete(alloc: Global) -> Result<Batch, AllocError> {
    Batch::of(alloc, &[Op::Delete(RowNo::first())])
}

// A relation of one column and no rows.
fn without_rows(alloc: Global) -> Result<Relation, AllocError> {
    Relation::without_rows(alloc, Row::copied(alloc, &[b"k"])?)
}

fn move_job_and_batch<R: Threads + Sync + Abort>(rt: &R, job: Job, batch: Batch) {
    let (to, operations) = join(rt, move || job.to(), move || batch.len());
    assert!(rt; to == RowNo::of(2));
    assert!(rt; operations == 1);
}

fn move_snapshot_and_relation<R: Threads + Sync + Abort>(
    rt: &R,
    snapshot: Arc<Snapshot>,
    relation: Relation,
) {
    let (live, rows) = join(rt, move || snapshot.live_count(), move || relation.len());
    assert!(rt; live == 1);
    assert!(rt; rows == 0);
}

// A missing proof that a value may move to another thread shows at a `join`.
#[test]
fn values_move_among_threads(rt: HostRuntime) -> Result<(), Fail> {
    let alloc = rt.alloc();
    let snapshot = Arc::new(alloc, one_row(alloc)?)?;
    let job = whole_job(snapshot.clone()?);
    move_job_and_batch(&rt, job, one_delete(alloc)?);
    move_snapshot_and_relation(&rt, snapshot, without_rows(alloc)?);
    Ok(())
}

#[test]
fn cells_stand_in_byte_order(rt: HostRuntime) -> Result<(), Fail> {
    let alloc = rt.alloc();
    let null = Cell::copied(alloc, b"")?;
    let small = Cell::copied(alloc, b"A")?;
    let large = Cell::of(vec![in alloc; 255u8, 0]?);
    assert!(rt; null.is_null() && !small.is_null());
    assert!(rt; null < small && small < large && small != large);
    assert!(rt; large.into_bytes().len() == 2);
    Ok(())
}

#[test]
fn causes_have_their_numbers(rt: HostRuntime) {
    let causes = [
        Why::NoHeader,
        Why::Columns,
        Why::Fields,
        Why::Cell,
        Why::Rows,
        Why::Bytes,
        Why::Kind,
        Why::Number,
        Why::Missing,
        Why::Cut,
    ];
    for i in 0..10usize {
        assert!(rt; causes[i].code() as usize == i + 1, "cause {i}");
    }
}

#[test]
fn standard_limits_are_the_greatest(rt: HostRuntime) {
    let standard = Limits::standard();
    assert!(rt; standard.columns == 128);
    assert!(rt; standard.rows == 1_000_000);
    assert!(rt; standard.cell == 65_536);
    assert!(rt; standard.bytes == 268_435_456);
}

#[test]
fn smaller_limits_keep_what_they_are_given(rt: HostRuntime) {
    let small = Limits::smaller(2, 3, 1, 16);
    assert!(rt; small.columns == 2);
    assert!(rt; small.rows == 3);
    assert!(rt; small.cell == 1);
    assert!(rt; small.bytes == 16);
}

#[test]
fn a_relation_keeps_its_names_and_rows(rt: HostRuntime) -> Result<(), Fail> {
    let alloc = rt.alloc();
    let names = Row::copied(alloc, &[b"k", b"v"])?;
    let rows = [
        Row::copied(alloc, &[b"1", b""])?,
        Row::copied(alloc, &[b"", b"xy"])?,
    ];
    let mut relation = Relation::without_rows(alloc, names)?;
    assert!(rt; relation.is_empty());
    for row in &rows {
        assert!(rt; relation.len() < 2 && relation.names().len() == 2);
        relation = relation.with_row(row)?;
    }
    assert!(rt; relation.len() == 2);
    assert!(rt; relation.rows(alloc)?.as_slice() == rows.as_slice());
    let (names, columns) = relation.into_columns();
    assert!(rt; names.len() == 2 && columns.len() == 2);
    assert!(rt; columns[0].len() == 2 && columns[0].size() == 1 && !columns[0].is_empty());
    let second = &columns[1];
    assert!(rt; second.len() == 2);
    assert!(rt; second.get(0).is_empty() && second.get(1) == b"xy".as_slice());
    Ok(())
}

// The relation whose columns `n` and `again` have these cells, and a dash between them.
fn numbered(alloc: Global, cells: &[&[u8]]) -> Result<Relation, AllocError> {
    let mut relation = Relation::without_rows(
        alloc,
        Row::copied(alloc, &[b"n", b"same", b"again"])?,
    )?;
    for cell in cells {
        let row = Row::copied(alloc, &[*cell, b"-", *cell])?;
        if relation.len() < 9 && relation.names().len() == row.len() {
            relation = relation.with_row(&row)?;
        }
    }
    Ok(relation)
}

#[test]
fn a_relation_takes_the_rows_of_another(rt: HostRuntime) -> Result<(), Fail> {
    let alloc = rt.alloc();
    for workers in 1u8..5 {
        let none = numbered(alloc, &[])?;
        let some = numbered(alloc, &[b"10", b"", b"7"])?;
        assert!(rt; none.len() + some.len() == 3 && none.names().len() == some.names().len());
        let taken = none.with_rows(&rt, some, workers)?;
        let more = numbered(alloc, &[b"", b"2345"])?;
        assert!(rt; taken.len() + more.len() == 5 && taken.names().len() == more.names().len());
        let both = taken.with_rows(&rt, more, workers)?;
        let last = numbered(alloc, &[])?;
        assert!(rt; both.len() + last.len() == 5 && both.names().len() == last.names().len());
        let all = both.with_rows(&rt, last, workers)?;
        let (_, columns) = all.into_columns();
        assert!(rt; columns.len() == 3);
        assert!(rt; columns[0].size() == 7 && columns[1].size() == 5 && columns[2].size() == 7);
        let wanted: [&[u8]; 5] = [b"10", b"", b"7", b"", b"2345"];
        for (place, cell) in wanted.iter().enumerate() {
            assert!(rt; place < columns[0].len() && columns[0].get(place) == *cell);
            assert!(rt; place < columns[1].len() && columns[1].get(place) == b"-".as_slice());
            assert!(rt; place < columns[2].len() && columns[2].get(place) == *cell);
        }
    }
    Ok(())
}

#[test]
fn a_name_keeps_its_text(rt: HostRuntime) -> Result<(), Fail> {
    let name = Name::of(String::from_str(rt.alloc(), "r.csv")?);
    assert!(rt; name.as_str() == "r.csv");
    assert!(rt; name.clone()? == name);
    Ok(())
}

#[test]
fn covers_keep_their_keys(rt: HostRuntime) -> Result<(), Fail> {
    let keys = vec![in rt.alloc(); ColSet::all(1)]?;
    let found = Covers::checked(keys, Vec::new(rt.alloc()));
    assert!(rt; found.is_some());
    if let Some(covers) = found {
        assert!(rt; covers.keys().len() == 1);
        assert!(rt; covers.fds().is_empty());
    }
    Ok(())
}

#[test]
fn lists_out_of_order_are_no_covers(rt: HostRuntime) -> Result<(), Fail> {
    let turned = vec![in rt.alloc(); ColSet::all(2), ColSet::all(1)]?;
    assert!(rt; Covers::checked(turned, Vec::new(rt.alloc())).is_none());
    let left = ColSet::all(1);
    let twice = vec![in rt.alloc(); Fd { left, right: 1 }, Fd { left, right: 1 }]?;
    assert!(rt; Covers::checked(Vec::new(rt.alloc()), twice).is_none());
    let far = vec![in rt.alloc(); Fd { left, right: 128 }]?;
    assert!(rt; Covers::checked(Vec::new(rt.alloc()), far).is_none());
    Ok(())
}

#[test]
fn readings_of_null_are_told_apart(rt: HostRuntime) {
    assert!(rt; Nulls::Equal != Nulls::Distinct);
}

// The codes of two columns and three rows.
fn two_columns(alloc: Global) -> Result<Vec<Codes>, AllocError> {
    Ok(vec![in alloc;
        Codes::of(vec![in alloc; 0u32, 0, 1]?),
        Codes::of(vec![in alloc; 0u32, 1, 2]?),
    ]?)
}

// The snapshot of these rows, the second of them dead.
fn three_rows(rt: &impl Abort, alloc: Global) -> Result<Snapshot, AllocError> {
    let codes = two_columns(alloc)?;
    let live = vec![in alloc; true, false, true]?;
    assert!(rt; codes.len() == 2);
    assert!(rt; live.len() == 3);
    assert!(rt; codes[0].len() == 3);
    assert!(rt; codes[1].len() == 3);
    Ok(Snapshot::of(codes, live, RowNo::of(4)))
}

// Asserts that the snapshot is that.
fn are_three_rows(rt: &impl Abort, snapshot: &Snapshot) {
    assert!(rt; snapshot.columns() == 2);
    assert!(rt; snapshot.to() == RowNo::of(4));
    assert!(rt; snapshot.live_count() == 2);
    let second = snapshot.column(1);
    assert!(rt; second.len() == 3);
    assert!(rt; second.get(2) == 2);
}

// Asserts that the first and the third row are live, and the second and a fourth are not.
fn first_and_third_are_live(rt: &impl Abort, snapshot: &Snapshot) {
    assert!(rt; snapshot.is_live(RowNo::first()));
    assert!(rt; !snapshot.is_live(RowNo::of(2)));
    assert!(rt; snapshot.is_live(RowNo::of(3)));
    assert!(rt; !snapshot.is_live(RowNo::of(4)));
}

#[test]
fn a_snapshot_keeps_what_it_is_given(rt: HostRuntime) -> Result<(), Fail> {
    let snapshot = three_rows(&rt, rt.alloc())?;
    are_three_rows(&rt, &snapshot);
    first_and_third_are_live(&rt, &snapshot);
    Ok(())
}

// The code of the first row in the second of two columns.
fn second_code(rt: &impl Abort, snapshot: &Snapshot) -> u32 {
    assert!(rt; snapshot.columns() == 2);
    assert!(rt; RowNo::first() < snapshot.to());
    snapshot.code(RowNo::first(), 1)
}

// Asserts that two jobs are equal.
fn are_equal_jobs(rt: &impl Abort, job: &Job, again: &Job) {
    assert!(rt; again.target() == job.target());
    assert!(rt; again.left() == job.left());
    assert!(rt; again.from() == job.from());
    assert!(rt; again.to() == job.to());
    assert!(rt; second_code(rt, again.snapshot()) == second_code(rt, job.snapshot()));
}

// A job on these rows.
fn job_on(snapshot: Arc<Snapshot>) -> Job {
    Job::of(
        Target::RowId,
        ColSet::all(2).without(0),
        RowNo::first(),
        RowNo::of(4),
        snapshot,
    )
}

#[test]
fn a_job_is_made_again(rt: HostRuntime) -> Result<(), Fail> {
    let alloc = rt.alloc();
    let job = job_on(Arc::new(alloc, three_rows(&rt, alloc)?)?);
    are_equal_jobs(&rt, &job, &job.again()?);
    Ok(())
}

// Operations whose rows have different widths.
fn mixed_batch(alloc: Global) -> Result<Batch, AllocError> {
    let mut batch = Batch::new(alloc);
    batch.push(&Op::Insert(Row::copied(alloc, &[b"a", b"", b"bc"])?))?;
    batch.push(&Op::Delete(RowNo::of(7)))?;
    batch.push(&Op::Update(RowNo::of(9), Row::copied(alloc, &[b"d"])?))?;
    batch.push(&Op::Insert(Row::copied(alloc, &[])?))?;
    Ok(batch)
}

// Writes each cell of a row and a comma.
fn write_row(text: &mut Vec<u8>, batch: &Batch, row: RowPlace) -> Result<(), AllocError> {
    for column in 0..batch.row_len(row) {
        text.extend_from_slice(batch.cell(row, column))?;
        text.push(b',')?;
    }
    Ok(())
}

// The last digit of a number.
fn digit(number: RowNo) -> u8 {
    (number.number() % 10) as u8 + b'0'
}

// Writes an operation.
fn write_change(text: &mut Vec<u8>, batch: &Batch, change: Change) -> Result<(), AllocError> {
    match change {
        Change::Insert(row) => {
            text.push(b'+')?;
            write_row(text, batch, row)
        }
        Change::Delete(number) => {
            text.push(b'-')?;
            Ok(text.push(digit(number))?)
        }
        Change::Update(number, row) => {
            text.push(b'=')?;
            text.push(digit(number))?;
            write_row(text, batch, row)
        }
    }
}

// The operations in order.
fn written(alloc: Global, batch: &Batch) -> Result<Vec<u8>, AllocError> {
    let mut text = Vec::new(alloc);
    let mut cursor = Cursor::start();
    for _place in 0..batch.len() {
        write_change(&mut text, batch, batch.change(cursor))?;
        cursor = batch.next(cursor);
    }
    Ok(text)
}

// The operations from the last one back to the first.
fn written_back(alloc: Global, batch: &Batch) -> Result<Vec<u8>, AllocError> {
    let mut text = Vec::new(alloc);
    let mut cursor = batch.end();
    while cursor.place() > 0 {
        cursor = batch.previous(cursor);
        write_change(&mut text, batch, batch.change(cursor))?;
    }
    Ok(text)
}

#[test]
fn a_batch_is_read_forward_and_back(rt: HostRuntime) -> Result<(), Fail> {
    let alloc = rt.alloc();
    let batch = mixed_batch(alloc)?;
    assert!(rt; batch.len() == 4 && !batch.is_empty());
    assert!(rt; written(alloc, &batch)?.as_slice() == b"+a,,bc,-7=9d,+".as_slice());
    assert!(rt; written_back(alloc, &batch)?.as_slice() == b"+=9d,-7+a,,bc,".as_slice());
    let again = Batch::of(alloc, &batch.to_ops(alloc)?)?;
    assert!(rt; written(alloc, &again)?.as_slice() == b"+a,,bc,-7=9d,+".as_slice());
    Ok(())
}

#[test]
fn a_batch_takes_no_wider_row(rt: HostRuntime) -> Result<(), Fail> {
    let alloc = rt.alloc();
    let mut batch = mixed_batch(alloc)?;
    let cells: [&[u8]; 256] = [b"x"; 256];
    let wide = Op::Insert(Row::copied(alloc, &cells)?);
    assert!(rt; batch.push(&wide).is_err());
    assert!(rt; batch.len() == 4);
    Ok(())
}
