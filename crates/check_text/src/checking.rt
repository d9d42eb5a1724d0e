// Whether a text is a certificate of a file's covers, as a line.
ghost use Rattle.std.specs.Prelude.{◌≡◌, IfOk};
ghost use Rattle.rel_base.specs.declared.nulls.Nulls.TheVariants.{Equal};
ghost use Rattle.rel_base.specs.RowState.{opened};
ghost use Rattle.cover_cert.specs.Certificates as certificates;
ghost use Rattle.check_text.specs.Answers.{answer_line, check_text};
ghost use Rattle.task_base.specs.Written.{text_alone};

use cover_cert::{Answer, check};
use itoa::Buffer;
use rel_base::{Nulls, Relation};
use row_log::RowLog;
use std::alloc::{AllocError, Global};
use std::thread::Threads;
use task_base::{Made, Means};

/// What `check` writes for the relation of a file and the bytes of another: whether these are a certificate of its covers, or else the first flaw.
///
/// Columns are coded by several workers; the relation is let go as soon as it is coded. What the check costs stands at `cover_cert::check`.
pub fn checked_of<R: Threads + Sync, G>(
    rt: &R,
    means: &Means<'_, G>,
    relation: Relation,
    certificate: &[u8],
) -> Result<Made, AllocError>
    ensures { IfOk result (λ made. made ≡ text_alone (check_text (opened Equal means.now.limits.rows relation) certificate.now)) }
{
    let rows = RowLog::open_by(
        rt,
        means.alloc,
        relation,
        means.limits,
        Nulls::Equal,
        means.workers,
    )?;
    let answer = answer_of(rt, means, &rows, certificate)?;
    let text = line_of(means.alloc, answer)?;
    Ok(Made::text_alone(means.alloc, text))
}

// What these bytes are found to be.
fn answer_of<R: Threads + Sync, G>(
    rt: &R,
    means: &Means<'_, G>,
    rows: &RowLog,
    certificate: &[u8],
) -> Result<Answer, AllocError>
    ensures { IfOk result (λ answer. answer ≡ certificates.answer rows.now certificate.now) }
{
    // `names` is called for its clause that these are a row state.
    let _names = rows.names();
    let snapshot = rows.snapshot(means.alloc)?;
    let answer = check(rt, means.alloc, &snapshot, certificate, means.workers)?;
    Ok(answer)
}

// The line of an answer.
fn line_of(alloc: Global, answer: Answer) -> Result<Vec<u8>, AllocError>
    ensures { IfOk result (λ text. text.items ≡ answer_line answer) }
{
    let mut text = Vec::new(alloc);
    match answer {
        Answer::Yes => text.extend_from_slice(b"yes")?,
        Answer::No { record, flaw } => {
            text.extend_from_slice(b"no,")?;
            text.extend_from_slice(Buffer::new().format(record).as_bytes())?;
            text.extend_from_slice(b",")?;
            text.extend_from_slice(Buffer::new().format(flaw.code()).as_bytes())?;
        }
    }
    text.extend_from_slice(b"\n")?;
    Ok(text)
}
