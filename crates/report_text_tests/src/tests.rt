// That each call gives its text, that the texts are the ones that a reader expects, and that fields are quoted as csv does.
// A case that is refused memory is tried once more, so that each allocation can be made to fail.
use rel_base::{ColSet, Covers, Fd, Name, Row, Table, Why};
use report_text::{
    Lines, applied_line, demo_line, fault_line, file_line, inclusions, refused_line, report,
    table_file, tables,
};
use std::alloc::{AllocError, Global};
use std::process::Abort;
use std::test::Fail;

fn name(alloc: Global, word: &str) -> Result<Name, AllocError> {
    Ok(Name::of(String::from_str(alloc, word)?))
}

fn one(column: u8) -> ColSet {
    ColSet::empty().with(column % 128)
}

fn expect_text(rt: &impl Abort, text: &Vec<u8>, expected: &str) {
    assert_eq!(rt; text.as_slice(), expected.as_bytes());
}

fn expect_end(rt: &impl Abort, text: &[u8], end: &[u8]) {
    assert!(rt; text.ends_with(end));
}

fn covers(rt: &impl Abort, keys: Vec<ColSet>, fds: Vec<Fd>) -> Covers {
    Covers::checked(keys, fds).expect(rt, "keys and dependencies in order")
}

fn check_report(rt: &impl Abort, alloc: Global) -> Result<(), AllocError> {
    let (id, city, zip) = (one(0), one(1), one(2));
    let fds = [
        Fd { left: id, right: 1 },
        Fd {
            left: zip,
            right: 1,
        },
        Fd { left: id, right: 2 },
        Fd {
            left: city,
            right: 2,
        },
    ];
    let covers = covers(
        rt,
        Vec::from_slice(alloc, &[id])?,
        Vec::from_slice(alloc, &fds)?,
    );
    let names = Row::copied(alloc, &[b"id", b"city", b"zip"])?;
    let text = report(alloc, &name(alloc, "r.csv")?, &names, 3, &covers)?;
    expect_text(
        rt,
        &text,
        "relation,r.csv,3,3\ncolumn,1,id\ncolumn,2,city\ncolumn,3,zip\nkey,1\nfd,1,2\nfd,3,2\nfd,1,3\nfd,2,3\n",
    );
    Ok(())
}

#[test]
fn a_report_has_its_four_kinds_of_lines(rt: HostRuntime) -> Result<(), Fail> {
    if check_report(&rt, rt.alloc()).is_err() {
        check_report(&rt, rt.alloc())?;
    }
    Ok(())
}

fn check_odd_report(rt: &impl Abort, alloc: Global) -> Result<(), AllocError> {
    let wide = one(127).with(9).with(0).with(99);
    let keys = Vec::from_slice(alloc, &[ColSet::empty(), wide])?;
    let fds = [
        Fd {
            left: ColSet::empty(),
            right: 0,
        },
        Fd {
            left: wide,
            right: 127,
        },
    ];
    let covers = covers(rt, keys, Vec::from_slice(alloc, &fds)?);
    let names = Row::copied(alloc, &[b"a,b", b"say \"x\"", b"two\nlines", b""])?;
    let text = report(alloc, &name(alloc, "x, y.csv")?, &names, u64::MAX, &covers)?;
    expect_text(
        rt,
        &text,
        "relation,\"x, y.csv\",4,18446744073709551615\ncolumn,1,\"a,b\"\ncolumn,2,\"say \"\"x\"\"\"\ncolumn,3,\"two\nlines\"\ncolumn,4,\nkey,\nkey,1 10 100 128\nfd,,1\nfd,1 10 100 128,128\n",
    );
    Ok(())
}

#[test]
fn empty_and_wide_column_sets_and_odd_names(rt: HostRuntime) -> Result<(), Fail> {
    if check_odd_report(&rt, rt.alloc()).is_err() {
        check_odd_report(&rt, rt.alloc())?;
    }
    Ok(())
}

// Lines that csv writes stand around those that need no quotes. A column's number has one digit, two or three, and the set may be empty.
fn check_mixed_lines(rt: &impl Abort, alloc: Global) -> Result<(), AllocError> {
    let edges = one(8).with(9).with(98).with(99).with(127);
    let cases = [
        (ColSet::empty(), 0, "key,\nfd,,1\n"),
        (one(8), 8, "key,9\nfd,9,9\n"),
        (one(9), 9, "key,10\nfd,10,10\n"),
        (one(98), 98, "key,99\nfd,99,99\n"),
        (one(99), 99, "key,100\nfd,100,100\n"),
        (one(127), 127, "key,128\nfd,128,128\n"),
        (edges, 0, "key,9 10 99 100 128\nfd,9 10 99 100 128,1\n"),
    ];
    let names = Row::copied(alloc, &[b"a,b"])?;
    let file = name(alloc, "x\"y")?;
    let mut lines = Lines::new(alloc);
    let mut expected = String::new(alloc);
    for (set, right, text) in cases {
        let keys = Vec::from_slice(alloc, &[set])?;
        let fds = Vec::from_slice(alloc, &[Fd { left: set, right }])?;
        lines.push_report(&file, &names, 7, &covers(rt, keys, fds))?;
        expected.push_str("relation,\"x\"\"y\",1,7\ncolumn,1,\"a,b\"\n")?;
        expected.push_str(text)?;
    }
    let text = lines.into_text()?;
    expect_text(rt, &text, expected.as_str());
    Ok(())
}

#[test]
fn keys_and_dependencies_stand_between_quoted_lines(rt: HostRuntime) -> Result<(), Fail> {
    if check_mixed_lines(&rt, rt.alloc()).is_err() {
        check_mixed_lines(&rt, rt.alloc())?;
    }
    Ok(())
}

// A dependency whose right side is beyond the columns: no covers have one, but a line takes any number of its type.
fn check_far_right_side(rt: &impl Abort, alloc: Global) -> Result<(), AllocError> {
    let left = one(8).with(9).with(98).with(99).with(127);
    let mut lines = Lines::new(alloc);
    lines.push_approx_line(&Fd { left, right: 255 }, 7)?;
    let text = lines.into_text()?;
    expect_text(rt, &text, "afd,9 10 99 100 128,256,7\n");
    Ok(())
}

#[test]
fn a_right_side_beyond_the_columns_has_its_number(rt: HostRuntime) -> Result<(), Fail> {
    if check_far_right_side(&rt, rt.alloc()).is_err() {
        check_far_right_side(&rt, rt.alloc())?;
    }
    Ok(())
}

// The longest line there is, and after it a short one in the same memory.
fn check_longest_line(rt: &impl Abort, alloc: Global) -> Result<(), AllocError> {
    let all = ColSet::all(128);
    let fds = [
        Fd {
            left: all,
            right: 126,
        },
        Fd {
            left: one(4),
            right: 127,
        },
    ];
    let covers = covers(
        rt,
        Vec::from_slice(alloc, &[all])?,
        Vec::from_slice(alloc, &fds)?,
    );
    let names = Row::copied(alloc, &[])?;
    let text = report(alloc, &name(alloc, "r")?, &names, 2, &covers)?;
    let (head, key, fd, short_fd) = (15, 408, 411, 9);
    assert_eq!(rt; text.len(), head + key + fd + short_fd);
    expect_end(rt, text.as_slice(), b" 126 127 128,127\nfd,5,128\n");
    Ok(())
}

#[test]
fn a_line_of_all_columns_has_room(rt: HostRuntime) -> Result<(), Fail> {
    if check_longest_line(&rt, rt.alloc()).is_err() {
        check_longest_line(&rt, rt.alloc())?;
    }
    Ok(())
}

fn check_outcomes(rt: &impl Abort, alloc: Global) -> Result<(), AllocError> {
    let refused = file_line(alloc, &name(alloc, "e.csv")?, 0, Why::NoHeader)?;
    expect_text(rt, &refused, "refused,e.csv,0,1\n");
    let fault = fault_line(alloc, &name(alloc, "r.csv")?)?;
    expect_text(rt, &fault, "fault,read,r.csv\n");
    let applied = applied_line(alloc, 2, 1, 0, 4)?;
    expect_text(rt, &applied, "applied,2,1,0,4\n");
    let batch = refused_line(alloc, 1, 2, Why::Missing)?;
    expect_text(rt, &batch, "refused,1,2,9\n");
    let demo = demo_line(alloc, 7, 2, 30, 4, 5)?;
    expect_text(rt, &demo, "demo,7,12,5000,2,30,4,5\n");
    Ok(())
}

#[test]
fn each_outcome_is_a_line(rt: HostRuntime) -> Result<(), Fail> {
    if check_outcomes(&rt, rt.alloc()).is_err() {
        check_outcomes(&rt, rt.alloc())?;
    }
    Ok(())
}

fn check_inclusions(rt: &impl Abort, alloc: Global) -> Result<(), AllocError> {
    let single = inclusions(alloc, &[2], &[(0, 1)])?;
    expect_text(rt, &single, "ind,1.1,1.2\n");
    let several = inclusions(alloc, &[1, 0, 3], &[(0, 3), (1, 0)])?;
    expect_text(rt, &several, "ind,1.1,3.3\nind,3.1,1.1\n");
    Ok(())
}

#[test]
fn inclusions_name_columns_by_relation(rt: HostRuntime) -> Result<(), Fail> {
    if check_inclusions(&rt, rt.alloc()).is_err() {
        check_inclusions(&rt, rt.alloc())?;
    }
    Ok(())
}

fn check_tables(rt: &impl Abort, alloc: Global) -> Result<(), AllocError> {
    let (id, city, zip) = (one(0), one(1), one(2));
    let list = [
        Table {
            columns: id.with(1),
            key: id,
        },
        Table {
            columns: city.with(2),
            key: city,
        },
    ];
    let text = tables(alloc, &list, &[(2, zip)])?;
    expect_text(rt, &text, "table,1,1 2,1\ntable,2,2 3,2\nalternate,2,3\n");
    let scattered = tables(alloc, &list, &[(2, zip), (3, id), (1, city), (2, id)])?;
    expect_text(
        rt,
        &scattered,
        "table,1,1 2,1\nalternate,1,2\ntable,2,2 3,2\nalternate,2,3\nalternate,2,1\n",
    );
    Ok(())
}

#[test]
fn tables_are_followed_by_their_alternates(rt: HostRuntime) -> Result<(), Fail> {
    if check_tables(&rt, rt.alloc()).is_err() {
        check_tables(&rt, rt.alloc())?;
    }
    Ok(())
}

fn check_table_files(rt: &impl Abort, alloc: Global) -> Result<(), AllocError> {
    let names = Row::copied(alloc, &[b"a,c", b"b"])?;
    let rows = [Row::copied(alloc, &[b"x\"y", b""])?];
    let text = table_file(alloc, &names, &rows)?;
    expect_text(rt, &text, "\"a,c\",b\n\"x\"\"y\",\n");
    let single = Row::copied(alloc, &[b"a"])?;
    let blank = [Row::copied(alloc, &[b""])?];
    let text = table_file(alloc, &single, &blank)?;
    expect_text(rt, &text, "a\n\"\"\n");
    Ok(())
}

#[test]
fn a_table_file_has_its_names_first(rt: HostRuntime) -> Result<(), Fail> {
    if check_table_files(&rt, rt.alloc()).is_err() {
        check_table_files(&rt, rt.alloc())?;
    }
    Ok(())
}

fn push_outcomes(lines: &mut Lines, word: &Name) -> Result<(), AllocError> {
    lines.push_applied_line(1, 0, 1, 2)?;
    lines.push_refused_line(2, 5, Why::Kind)?;
    lines.push_fault_line(word)
}

fn check_lines(rt: &impl Abort, alloc: Global) -> Result<(), AllocError> {
    let word = name(alloc, "-")?;
    let mut lines = Lines::new(alloc);
    push_outcomes(&mut lines, &word)?;
    let text = lines.into_text()?;
    expect_text(rt, &text, "applied,1,0,1,2\nrefused,2,5,7\nfault,read,-\n");
    Ok(())
}

#[test]
fn lines_take_several_texts(rt: HostRuntime) -> Result<(), Fail> {
    if check_lines(&rt, rt.alloc()).is_err() {
        check_lines(&rt, rt.alloc())?;
    }
    Ok(())
}

fn push_many(lines: &mut Lines) -> Result<(), AllocError> {
    for batch in 1000..2000 {
        lines.push_applied_line(batch, 1, 2, 3)?;
    }
    Ok(())
}

// The text is longer than what the writer holds back, so that adding a line takes memory.
#[test]
fn no_lines_are_kept_where_memory_is_refused(rt: HostRuntime) -> Result<(), Fail> {
    let mut lines = Lines::new(rt.alloc());
    if push_many(&mut lines).is_err() {
        push_many(&mut lines)?;
    }
    if let Ok(text) = lines.into_text() {
        assert_eq!(rt; text.len(), 19_000);
    }
    Ok(())
}
