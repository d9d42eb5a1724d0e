// The inclusions of lists of columns among some files, as a text.
ghost use Rattle.std.specs.Prelude.{◌≡◌, ◌+◌, ◌++◌, length, map, IfOk, OnOk};
ghost use Rattle.std.specs.List.{flat_map};
ghost use Rattle.rel_base.specs.declared.nulls.Nulls.TheVariants.{Equal};
ghost use Rattle.rel_base.specs.RowState.{opened};
ghost use Rattle.nary_text.specs.Inclusions.{head_of, heads_text, inclusion_line, nary_text};
ghost use Rattle.task_base.specs.Written.{text_alone};

use nary_ind::{ListInd, MOST_WIDTH, included_lists};
use rel_base::{Name, Nulls, Relation};
use report_text::Lines;
use row_log::RowLog;
use std::alloc::{AllocError, Global};
use std::thread::Threads;
use task_base::{Made, Means};

/// What `nary` writes for the relations of these files: the lines of each, and then all inclusions of lists of up to so many columns.
///
/// Columns are coded by several workers; a relation is let go as soon as it is coded, and all of them are kept as codes until the end. What
/// the search costs stands at `nary_ind::included_lists`. Lists of more than `MOST_WIDTH` columns end for lack of memory.
pub fn list_inclusions_of<R: Threads + Sync, G>(
    rt: &R,
    means: &Means<'_, G>,
    width: u8,
    files: &[Name],
    relations: Vec<Relation>,
) -> Result<Made, AllocError>
    requires named { length relations.items ≡ length files.now }
    ensures { IfOk result (λ made. made ≡ text_alone (nary_text width files.now (map (opened Equal means.now.limits.rows) relations.items))) }
{
    if usize::from(width) > MOST_WIDTH {
        return Err(AllocError);
    }
    let coded = coded_each(rt, means, relations)?;
    let found = included_lists(rt, means.alloc, &coded, width, means.workers)?;
    let text = text_of(means.alloc, files, &coded, &found)?;
    Ok(Made::text_alone(means.alloc, text))
}

// The rows of these relations.
fn coded_each<R: Threads + Sync, G>(
    rt: &R,
    means: &Means<'_, G>,
    relations: Vec<Relation>,
) -> Result<Vec<RowLog>, AllocError>
    ensures { IfOk result (λ coded. coded.items ≡ map (opened Equal means.now.limits.rows) relations.items) }
{
    let mut coded = Vec::with_capacity(means.alloc, relations.len())?;
    for relation in relations {
        coded.push(coded_of(rt, means, relation)?)?;
    }
    Ok(coded)
}

fn coded_of<R: Threads + Sync, G>(
    rt: &R,
    means: &Means<'_, G>,
    relation: Relation,
) -> Result<RowLog, AllocError>
    ensures { IfOk result (λ coded. coded ≡ opened Equal means.now.limits.rows relation) }
{
    RowLog::open_by(
        rt,
        means.alloc,
        relation,
        means.limits,
        Nulls::Equal,
        means.workers,
    )
}

// The lines of relations and of what was found in them.
fn text_of(
    alloc: Global,
    files: &[Name],
    coded: &[RowLog],
    found: &[ListInd],
) -> Result<Vec<u8>, AllocError>
    requires { length coded.now ≡ length files.now }
    ensures { IfOk result (λ text. text.items ≡ heads_text files.now coded.now ++ flat_map inclusion_line found.now) }
{
    let mut lines = Lines::new(alloc);
    push_heads(&mut lines, files, coded)?;
    push_found(&mut lines, found)?;
    lines.into_text()
}

// Adds the lines that name each relation and its columns.
fn push_heads(lines: &mut Lines, files: &[Name], coded: &[RowLog]) -> Result<(), AllocError>
    requires { length coded.now ≡ length files.now }
    ensures { OnOk result (lines.new ≡ lines.old ++ heads_text files.now coded.now) }
{
    for place in 0..coded.len() {
        push_head(lines, &files[place], &coded[place])?;
    }
    Ok(())
}

fn push_head(lines: &mut Lines, file: &Name, rows: &RowLog) -> Result<(), AllocError>
    ensures { OnOk result (lines.new ≡ lines.old ++ head_of (file.now, rows.now)) }
{
    lines.push_head(file, rows.names(), u64::from(rows.live_len()))
}

// Adds the line of each inclusion.
fn push_found(lines: &mut Lines, found: &[ListInd]) -> Result<(), AllocError>
    ensures { OnOk result (lines.new ≡ lines.old ++ flat_map inclusion_line found.now) }
{
    for one in found {
        lines.push_list_inclusion(
            number_of(one.dep_rel)?,
            one.dep_cols.as_slice(),
            number_of(one.into_rel)?,
            one.into_cols.as_slice(),
        )?;
    }
    Ok(())
}

// The number of a relation, from 1 on.
fn number_of(relation: usize) -> Result<u64, AllocError>
    ensures { IfOk result (λ number. number ≡ relation + 1) }
{
    match (relation as u64).checked_add(1) {
        Some(number) => Ok(number),
        None => Err(AllocError),
    }
}
