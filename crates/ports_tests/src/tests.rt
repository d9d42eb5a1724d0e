// What no clause says, and that the traits' clauses are enough for a caller.
ghost use Rattle.std.specs.Prelude.{◌≡◌, ◌+◌, ◌<◌, ◌≤◌, ℕ, length, take, IfSome, IfOk, ◌++◌};
ghost use Rattle.ports.specs.Faults.{Rose, RoseAt};
ghost use Rattle.ports.specs.Bytes.{Gains};
ghost use Rattle.ports.specs.Files.{Nothing, bytes_of};
ghost use Rattle.ports.specs.Lists.{look_up};

use ports::*;
use rel_base::Name;
use std::alloc::{AllocError, Global};
use std::test::Fail;

#[derive(Clone, Copy, PartialEq, Eq)]
enum Copied {
    Done,
    TooLong,
    ReadFault,
    WriteFault,
    NoMemory,
}

// A program over any shelf and any sink: a file is copied to the sink.
fn copy_file<H: Shelf, O: Sink>(
    alloc: Global,
    shelf: &mut H,
    sink: &mut O,
    name: Name,
    limit: u64,
) -> Copied
    requires { H.opened shelf.old ≡ Nothing }
    ensures done { result ≡ Copied.Done → IfSome (H.content shelf.old) (λ files.
        Gains (O.held sink.old) (O.held sink.new) (bytes_of files name)) }
    ensures too_long { result ≡ Copied.TooLong → IfSome (H.content shelf.old) (λ files.
        limit < length (bytes_of files name)) }
    ensures read_fault { result ≡ Copied.ReadFault
        → RoseAt name H.read_faults H.read_last shelf.old shelf.new }
    ensures write_fault { result ≡ Copied.WriteFault
        → Rose (O.faults sink.old) (O.faults sink.new) }
    ensures prefix { result ≡ Copied.WriteFault → IfSome (H.content shelf.old) (λ files.
        (count : ℕ) × (count < length (bytes_of files name))
        × Gains (O.held sink.old) (O.held sink.new) (take count (bytes_of files name))) }
    ensures files { H.content shelf.new ≡ H.content shelf.old }
    ensures closed { H.opened shelf.new ≡ Nothing }
    ensures room { O.room sink.new ≡ O.room sink.old }
{
    match load_file(alloc, shelf, name, limit) {
        Loading::Loaded(bytes) => match put_all(sink, &bytes) {
            Putting::Put => Copied::Done,
            Putting::Failed => Copied::WriteFault,
        },
        Loading::TooLong => Copied::TooLong,
        Loading::Failed => Copied::ReadFault,
        Loading::NoMemory => Copied::NoMemory,
    }
}

// Over a shelf that never fails at a read and a sink with room it fails only for want of memory.
fn copy_surely(
    alloc: Global,
    shelf: &mut SureShelf,
    sink: &mut SureSink,
    name: Name,
    limit: u64,
) -> Result<(), AllocError>
    requires closed { shelf.old.opened ≡ Nothing }
    requires whole { sink.old.faults ≡ 0 }
    requires short { length (bytes_of (look_up shelf.old.files) name) ≤ limit }
    requires room { length sink.old.store.held + length (bytes_of (look_up shelf.old.files) name)
        < sink.old.store.room }
    ensures { IfOk result (λ _. sink.new.store.held
        ≡ sink.old.store.held ++ bytes_of (look_up shelf.old.files) name) }
{
    match copy_file(alloc, shelf, sink, name, limit) {
        Copied::Done => Ok(()),
        Copied::NoMemory => Err(AllocError),
        Copied::TooLong | Copied::ReadFault | Copied::WriteFault => {
            let _held = sink.bytes();
            unreachable!()
        }
    }
}

const R: &str = "id,city,zip\n1,Berlin,10115\n2,Berlin,10115\n3,Potsdam,14467\n";

// Its first 40 bytes.
const R_FIRST: &str = "id,city,zip\n1,Berlin,10115\n2,Berlin,1011";

fn name(alloc: Global, word: &str) -> Result<Name, AllocError> {
    Ok(Name::of(String::from_str(alloc, word)?))
}

// The bytes of R.
fn text(alloc: Global) -> Result<Vec<u8>, AllocError> {
    R.as_bytes().to_vec(alloc)
}

// Whether the bytes are those of this text.
fn is_same(bytes: &[u8], text: &str) -> bool {
    bytes == text.as_bytes()
}

// Whether R was loaded.
fn is_text(loading: &Loading) -> bool {
    match loading {
        Loading::Loaded(bytes) => is_same(bytes, R),
        Loading::TooLong | Loading::Failed | Loading::NoMemory => false,
    }
}

// What loading R comes to from a source whose reads move at most so many bytes.
fn load_text(alloc: Global, limit: u64, largest: usize) -> Result<Loading, AllocError>
    requires { 0 < largest }
{
    let mut source = MemSource::of(text(alloc)?, Vec::new(alloc), largest);
    Ok(load(alloc, &mut source, limit))
}

// A file `r.csv` that holds R.
fn files(alloc: Global) -> Result<Vec<(Name, Text)>, AllocError> {
    Ok(vec![in alloc; (name(alloc, "r.csv")?, Text::of(text(alloc)?))]?)
}

// A shelf with that file and 2 buffers of 58 bytes.
fn shelf(alloc: Global, fails: Vec<(Kind, u64)>, largest: usize) -> Result<MemShelf, AllocError>
    requires { 0 < largest }
    ensures { IfOk result (λ shelf. shelf.opened ≡ Nothing) }
{
    MemShelf::with(alloc, files(alloc)?, 2, 58, fails, largest)
}

// Such a shelf of which one call fails.
fn failing_shelf(
    alloc: Global,
    kind: Kind,
    number: u64,
    largest: usize,
) -> Result<MemShelf, AllocError>
    requires { 0 < largest }
    ensures { IfOk result (λ shelf. shelf.opened ≡ Nothing) }
{
    shelf(alloc, vec![in alloc; (kind, number)]?, largest)
}

// Whether loading the file of this name answers so.
fn loads(
    alloc: Global,
    shelf: &mut MemShelf,
    word: &str,
    limit: u64,
    answer: &Loading,
) -> Result<bool, AllocError>
    requires { shelf.old.opened ≡ Nothing }
    ensures { shelf.new.opened ≡ Nothing }
{
    Ok(load_file(alloc, shelf, name(alloc, word)?, limit) == *answer)
}

// Whether loading the file of this name gives R.
fn loads_text(
    alloc: Global,
    shelf: &mut MemShelf,
    word: &str,
    limit: u64,
) -> Result<bool, AllocError>
    requires { shelf.old.opened ≡ Nothing }
    ensures { shelf.new.opened ≡ Nothing }
{
    Ok(is_text(&load_file(alloc, shelf, name(alloc, word)?, limit)))
}

// Stores R under this name.
fn stored(alloc: Global, shelf: &mut MemShelf, word: &str) -> Result<Storing, AllocError>
    requires { shelf.old.opened ≡ Nothing }
    ensures { shelf.new.opened ≡ Nothing }
{
    Ok(store_file(shelf, name(alloc, word)?, R.as_bytes()))
}

// Whether the file of this name holds this text.
fn holds(alloc: Global, shelf: &MemShelf, word: &str, text: &str) -> Result<bool, AllocError> {
    let name = name(alloc, word)?;
    Ok(match shelf.file(&name) {
        Some(bytes) => is_same(bytes, text),
        None => false,
    })
}

// Whether no file has this name.
fn is_absent(alloc: Global, shelf: &MemShelf, word: &str) -> Result<bool, AllocError> {
    let name = name(alloc, word)?;
    Ok(shelf.file(&name).is_none())
}

// Whether R is stored under this name, and is there then.
fn stores(alloc: Global, shelf: &mut MemShelf, word: &str) -> Result<bool, AllocError>
    requires { shelf.old.opened ≡ Nothing }
    ensures { shelf.new.opened ≡ Nothing }
{
    let answer = stored(alloc, shelf, word)?;
    Ok(answer == Storing::Stored && holds(alloc, shelf, word, R)?)
}

// Whether storing R under this name fails, and this text of it is there then, or no file for None.
fn fails_with(
    alloc: Global,
    shelf: &mut MemShelf,
    word: &str,
    held: Option<&str>,
) -> Result<bool, AllocError>
    requires { shelf.old.opened ≡ Nothing }
    ensures { shelf.new.opened ≡ Nothing }
{
    let answer = stored(alloc, shelf, word)?;
    let same = match held {
        Some(text) => holds(alloc, shelf, word, text)?,
        None => is_absent(alloc, shelf, word)?,
    };
    Ok(answer == Storing::Failed && same)
}

#[test]
fn a_text_is_loaded_up_to_the_limit(rt: HostRuntime) -> Result<(), Fail> {
    for largest in [1, 7, 58, 100] {
        assert!(rt; is_text(&load_text(rt.alloc(), 58, largest)?));
        assert!(rt; load_text(rt.alloc(), 57, largest)? == Loading::TooLong);
    }
    Ok(())
}

#[test]
fn a_sure_source_is_loaded_to_its_end(rt: HostRuntime) -> Result<(), Fail> {
    let mut source = SureSource::of(text(rt.alloc())?);
    assert!(rt; is_text(&load(rt.alloc(), &mut source, u64::MAX)));
    assert!(rt; source.left().len() == 0);
    Ok(())
}

#[test]
fn a_listed_read_fails_and_is_counted(rt: HostRuntime) -> Result<(), Fail> {
    let alloc = rt.alloc();
    let mut source = MemSource::of(text(alloc)?, vec![in alloc; 3]?, 20);
    assert!(rt; load(alloc, &mut source, 58) == Loading::Failed);
    assert!(rt; source.faults() == 1);
    assert!(rt; source.left().len() == 18, "a failed read moves nothing");
    Ok(())
}

#[test]
fn a_sure_sink_takes_what_it_has_room_for(rt: HostRuntime) -> Result<(), Fail> {
    let alloc = rt.alloc();
    let mut sink = SureSink::with_room(alloc, 58)?;
    assert!(rt; sink.bytes().len() == 0);
    assert!(rt; put_all(&mut sink, R.as_bytes()) == Putting::Put);
    assert!(rt; put_all(&mut sink, b"more") == Putting::Failed);
    assert!(rt; is_same(sink.bytes(), R));
    assert!(rt; sink.faults() == 1);
    Ok(())
}

#[test]
fn a_listed_write_fails_and_is_counted(rt: HostRuntime) -> Result<(), Fail> {
    let alloc = rt.alloc();
    let mut sink = MemSink::with_room(alloc, 58, vec![in alloc; 4]?, 1)?;
    assert!(rt; sink.bytes().len() == 0);
    assert!(rt; put_all(&mut sink, R.as_bytes()) == Putting::Failed);
    assert!(rt; sink.bytes() == b"id,".as_slice(), "three writes of a byte");
    assert!(rt; sink.faults() == 1);
    Ok(())
}

#[test]
fn each_write_to_a_sink_is_handed_all_that_is_left(rt: HostRuntime) -> Result<(), Fail> {
    let alloc = rt.alloc();
    let mut sink = MemSink::with_room(alloc, 58, vec![in alloc; 2]?, 58)?;
    assert!(rt;
        put_all(&mut sink, R.as_bytes()) == Putting::Put,
        "there is no second write"
    );
    Ok(())
}

#[test]
fn each_write_to_a_file_is_handed_all_that_is_left(rt: HostRuntime) -> Result<(), Fail> {
    let mut shelf = failing_shelf(rt.alloc(), Kind::Write, 2, 58)?;
    assert!(rt;
        stores(rt.alloc(), &mut shelf, "t.csv")?,
        "there is no second write"
    );
    Ok(())
}

#[test]
fn a_shelf_begins_with_its_files(rt: HostRuntime) -> Result<(), Fail> {
    let alloc = rt.alloc();
    let mut shelf = shelf(alloc, Vec::new(alloc), 58)?;
    assert!(rt; shelf.len() == 1);
    assert!(rt; loads_text(alloc, &mut shelf, "r.csv", 58)?);
    assert!(rt; loads(alloc, &mut shelf, "r.csv", 57, &Loading::TooLong)?);
    assert!(rt;
        loads(alloc, &mut shelf, "t.csv", 58, &Loading::Failed)?,
        "it is not there"
    );
    assert!(rt; shelf.read_faults() == 1);
    Ok(())
}

#[test]
fn a_shelf_has_room_for_two_files_more(rt: HostRuntime) -> Result<(), Fail> {
    let alloc = rt.alloc();
    let mut shelf = shelf(alloc, Vec::new(alloc), 1)?;
    assert!(rt; stores(alloc, &mut shelf, "t.csv")?);
    assert!(rt; stores(alloc, &mut shelf, "t.csv")?);
    assert!(rt; fails_with(alloc, &mut shelf, "u.csv", None)?);
    assert!(rt; shelf.len() == 2);
    assert!(rt; shelf.write_faults() == 1);
    Ok(())
}

#[test]
fn a_listed_call_of_a_load_fails(rt: HostRuntime) -> Result<(), Fail> {
    for (kind, number) in [(Kind::Open, 1), (Kind::Read, 2), (Kind::Close, 1)] {
        let mut shelf = failing_shelf(rt.alloc(), kind, number, 20)?;
        assert!(rt;
            loads(rt.alloc(), &mut shelf, "r.csv", 58, &Loading::Failed)?,
            "{kind:?}"
        );
        assert!(rt; shelf.read_last() == Some(b"r.csv".as_slice()));
    }
    Ok(())
}

#[test]
fn a_listed_call_of_a_store_fails(rt: HostRuntime) -> Result<(), Fail> {
    for (kind, number, held) in [
        (Kind::Create, 1, None),
        (Kind::Write, 1, Some("")),
        (Kind::Write, 3, Some(R_FIRST)),
        (Kind::Close, 1, Some(R)),
    ] {
        let mut shelf = failing_shelf(rt.alloc(), kind, number, 20)?;
        assert!(rt;
            fails_with(rt.alloc(), &mut shelf, "t.csv", held)?,
            "{kind:?}"
        );
        assert!(rt; shelf.write_last() == Some(b"t.csv".as_slice()));
    }
    Ok(())
}

#[test]
fn a_sure_shelf_reads_what_it_has(rt: HostRuntime) -> Result<(), Fail> {
    let alloc = rt.alloc();
    let mut shelf = SureShelf::of(files(alloc)?);
    let mut sink = SureSink::with_room(alloc, 100)?;
    assert!(rt; copy_file(alloc, &mut shelf, &mut sink, name(alloc, "r.csv")?, 58) == Copied::Done);
    assert!(rt; copy_file(alloc, &mut shelf, &mut sink, name(alloc, "none")?, 0) == Copied::Done);
    assert!(rt; is_same(sink.bytes(), R));
    assert!(rt; store_file(&mut shelf, name(alloc, "t.csv")?, b"") == Storing::Failed);
    OpenGate.at(0, Point::Fed);
    Ok(())
}
