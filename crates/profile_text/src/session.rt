// The answers of a session.
ghost use Rattle.std.specs.Prelude.{◌≡◌, ◌++◌, ◌∷◌, [], ◌<◌, ◌≤◌, ◌+◌, ◌^◌, ℕ, List, None, length, IfOk, OnOk};
ghost use Rattle.std.specs.List.{All};
ghost use Rattle.rel_base.specs.declared.batch.Op.{Op};
ghost use Rattle.rel_base.specs.RowState.{RowState, opened, width};
ghost use Rattle.rel_base.specs.Batches.{after, kept_or_after};
ghost use Rattle.batch_update.specs.declared.item.Item.{Item};
ghost use Rattle.cover_steps.specs.Core.{first_unfinished as first_unfinished_of};
ghost use Rattle.profile_text.specs.Items.{IsAnswerable};
ghost use Rattle.profile_text.specs.Reports.{reports};
ghost use Rattle.profile_text.specs.Session as spec;
ghost use Rattle.profile_text.specs.Waiting.{waiting, text_with, AreWaiting, AreTold, IsReply};

use crate::covering::refined;
use crate::kept_inclusions::KeptInclusions;
use crate::reports::push_report_of;
use batch_update::{Item, read_changes};
use cover_core::{Applying, Book};
use ports::Gate;
use refine_pool::Refined;
use rel_base::{Batch, Name, Nulls, Relation, Why};
use report_text::Lines;
use std::alloc::{AllocError, Global};
use std::sync::Wait;
use std::thread::Threads;
use task_base::Means;

/// What a change text is answered, for the relation of a file of this name.
///
/// The rows stay in one book, whose witnesses and candidates outlive each batch. The relation is let go as soon as it is coded. The
/// batches between two reports are applied by one phase, and those after the last report by one more.
pub fn session_of<R: Threads + Wait + Sync, G: Gate + Sync>(
    rt: &R,
    means: &Means<'_, G>,
    nulls: Nulls,
    name: &Name,
    relation: Relation,
    bytes: &[u8],
) -> Result<Vec<u8>, AllocError>
    requires short { length bytes.now < 2 ^ 32 }
    requires workers { (0 < means.now.workers) × (means.now.workers ≤ 16) }
    ensures { IfOk result (λ text. text.items ≡ spec.session_text name.now (opened nulls means.now.limits.rows relation) means.now.limits bytes.now) }
{
    let book = Book::open_by(
        rt,
        means.alloc,
        relation,
        means.limits,
        nulls,
        means.workers,
    )?;
    let columns = book.rows().names().len() as u8;
    let items = read_changes(means.alloc, bytes, columns, &means.limits)?;
    answers_to(rt, means, name, book, items)
}

// The answers to these items, one after another.
fn answers_to<R: Threads + Wait + Sync, G: Gate + Sync>(
    rt: &R,
    means: &Means<'_, G>,
    name: &Name,
    book: Book,
    items: Vec<Item>,
) -> Result<Vec<u8>, AllocError>
    requires items { All (IsAnswerable (width book.rows)) items.items }
    requires workers { (0 < means.now.workers) × (means.now.workers ≤ 16) }
    ensures { IfOk result (λ text. text.items ≡ spec.answers name.now book.rows items.items) }
{
    let mut session = Session::new(means.alloc, book);
    for item in items {
        session = session.after(rt, means, name, item)?;
    }
    session.into_text(rt, means)
}

// What waits for an answer.
#[derive(Clone, Copy)]
enum Asked {
    // A batch that is to be applied.
    Sound { no: u32, first: u64 },
    // A batch that is refused as it stands.
    Faulty { no: u32, rec: u64, why: Why },
}

// A session between two items of its change text. What was asked since the last report waits for the next one, or for the end.
#[derive(Drop)]
struct Session {
    // The rows before the batches that wait.
    book: Book,
    // What all before these was answered.
    lines: Lines,
    // What waits, in order.
    asked: Vec<Asked>,
    // The sound ones of these.
    batches: Vec<Batch>,
    // What serves to find the inclusions for the next report.
    kept: KeptInclusions,
}

impl Session {
    // Nothing was asked yet.
    fn new(alloc: Global, book: Book) -> Session
        ensures book { result.book ≡ book }
        ensures text { result.lines ≡ [] }
        ensures asked { result.asked.items ≡ [] }
        ensures batches { result.batches.items ≡ [] }
    {
        Session {
            book,
            lines: Lines::new(alloc),
            asked: Vec::new(alloc),
            batches: Vec::new(alloc),
            kept: KeptInclusions::new(alloc),
        }
    }

    // The session after one item more.
    fn after<R: Threads + Wait + Sync, G: Gate + Sync>(
        mut self,
        rt: &R,
        means: &Means<'_, G>,
        name: &Name,
        item: Item,
    ) -> Result<Session, AllocError>
        requires asked { AreWaiting (width self.book.rows) self.asked.items self.batches.items }
        requires item { IsAnswerable (width self.book.rows) item }
        requires workers { (0 < means.now.workers) × (means.now.workers ≤ 16) }
        ensures text { IfOk result (λ s. (more : List Item) → text_with name.now s.lines s.book.rows s.asked.items s.batches.items more
            ≡ text_with name.now self.lines self.book.rows self.asked.items self.batches.items (item ∷ more)) }
        ensures waits { IfOk result (λ s. AreWaiting (width s.book.rows) s.asked.items s.batches.items) }
        ensures wide { IfOk result (λ s. width s.book.rows ≡ width self.book.rows) }
    {
        match item {
            Item::Batch { no, first, batch } => {
                let no = no as u32;
                self.asked.push(Asked::Sound { no, first })?;
                self.batches.push(batch)?;
                Ok(self)
            }
            Item::Bad { no, rec, why } => {
                let no = no as u32;
                self.asked.push(Asked::Faulty { no, rec, why })?;
                Ok(self)
            }
            Item::Report => {
                let session = self.answered(rt, means)?;
                session.reported(means.alloc, name)
            }
        }
    }

    // Has the batches that wait applied by a phase, and adds what they and the faulty ones are answered. Each candidate is known to
    // hold then.
    fn answered<R: Threads + Wait + Sync, G: Gate + Sync>(
        self,
        rt: &R,
        means: &Means<'_, G>,
    ) -> Result<Session, AllocError>
        requires asked { AreWaiting (width self.book.rows) self.asked.items self.batches.items }
        requires workers { (0 < means.now.workers) × (means.now.workers ≤ 16) }
        ensures text { IfOk result (λ s. (name : List ℕ) (more : List Item) → text_with name s.lines s.book.rows [] [] more
            ≡ text_with name self.lines self.book.rows self.asked.items self.batches.items more) }
        ensures asked { IfOk result (λ s. s.asked.items ≡ []) }
        ensures batches { IfOk result (λ s. s.batches.items ≡ []) }
        ensures wide { IfOk result (λ s. width s.book.rows ≡ width self.book.rows) }
        ensures finished { IfOk result (λ s. first_unfinished_of s.book ≡ None) }
    {
        let Session {
            book,
            mut lines,
            asked,
            batches,
            kept,
        } = self;
        let live = book.rows().live_len();
        let Refined { book, replies } = refined(rt, means, book, batches)?;
        push_answers(&mut lines, &asked, &replies, live)?;
        Ok(Session {
            book,
            lines,
            asked: Vec::new(means.alloc),
            batches: Vec::new(means.alloc),
            kept,
        })
    }

    // Adds the report of the rows as they are now, and the inclusions among their columns.
    fn reported(mut self, alloc: Global, name: &Name) -> Result<Session, AllocError>
        requires { first_unfinished_of self.book ≡ None }
        ensures text { IfOk result (λ s. s.lines ≡ self.lines ++ reports (name.now ∷ []) (self.book.rows ∷ [])) }
        ensures book { IfOk result (λ s. s.book ≡ self.book) }
        ensures asked { IfOk result (λ s. s.asked.items ≡ self.asked.items) }
        ensures batches { IfOk result (λ s. s.batches.items ≡ self.batches.items) }
    {
        push_report_of(&mut self.lines, name, &self.book)?;
        self.kept
            .push_inclusions(alloc, self.book.rows(), &mut self.lines)?;
        Ok(self)
    }

    // The text of all answers. Batches that still wait are applied by a phase of their own.
    fn into_text<R: Threads + Wait + Sync, G: Gate + Sync>(
        mut self,
        rt: &R,
        means: &Means<'_, G>,
    ) -> Result<Vec<u8>, AllocError>
        requires asked { AreWaiting (width self.book.rows) self.asked.items self.batches.items }
        requires workers { (0 < means.now.workers) × (means.now.workers ≤ 16) }
        ensures { IfOk result (λ text. (name : List ℕ) → text.items ≡ text_with name self.lines self.book.rows self.asked.items self.batches.items []) }
    {
        if self.batches.is_empty() {
            let live = self.book.rows().live_len();
            push_answers(&mut self.lines, &self.asked, &[], live)?;
            return self.lines.into_text();
        }
        self.answered(rt, means)?.lines.into_text()
    }
}

// Adds what waits is answered, in order, where the batches got these replies and so many rows were live before them.
fn push_answers(
    lines: &mut Lines,
    asked: &[Asked],
    replies: &[Applying],
    mut live: u32,
) -> Result<(), AllocError>
    requires { (r : RowState) × (batches : List (List Op)) × AreTold r batches asked.now replies.now live }
    ensures { OnOk result ((r : RowState) (batches : List (List Op)) → AreTold r batches asked.now replies.now live
        → (name : List ℕ) → lines.new ≡ lines.old ++ spec.answers name r (waiting asked.now batches)) }
{
    let mut left = replies;
    for one in asked {
        match *one {
            Asked::Sound { no, first } => {
                let Some((reply, later)) = left.split_first() else {
                    unreachable!()
                };
                live = push_answer(lines, no, first, *reply, live)?;
                left = later;
            }
            Asked::Faulty { no, rec, why } => lines.push_refused_line(no, rec, why)?,
        }
    }
    Ok(())
}

// Adds what became of a batch that got this reply, where so many rows were live before it, and gives how many are after it.
fn push_answer(
    lines: &mut Lines,
    no: u32,
    first: u64,
    reply: Applying,
    live: u32,
) -> Result<u32, AllocError>
    requires { (r : RowState) × (ops : List Op) × IsReply first r ops reply live }
    ensures text { OnOk result ((r : RowState) (ops : List Op) → IsReply first r ops reply live
        → lines.new ≡ lines.old ++ spec.batch_line no first ops (after r ops)) }
    ensures live { IfOk result (λ now. (r : RowState) (ops : List Op) → IsReply first r ops reply live
        → now ≡ length (kept_or_after r (after r ops)).live) }
{
    match reply {
        Applying::Applied { inserted, deleted } => {
            let live = live + inserted - deleted;
            lines.push_applied_line(no, inserted, deleted, live)?;
            Ok(live)
        }
        Applying::Refused { at, why } => {
            lines.push_refused_line(no, first + at - 1, why)?;
            Ok(live)
        }
        Applying::NoMemory => Err(AllocError),
    }
}
