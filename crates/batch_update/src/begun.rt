// What has been read of the batch at hand.
ghost use Rattle.std.specs.Prelude.{◌≡◌, ◌<◌, ◌+◌, ◌^◌, if◌then◌else◌, ◌++◌, IfOk, OnOk, [], List};
ghost use Rattle.batch_update.specs.Coming.{TakesEntry, coming};

use crate::entry::Entry;
use crate::item::Item;
use rel_base::{Batch, Why};
use std::alloc::{AllocError, Global};

/// Where a reading stands.
#[derive(Clone, Copy)]
pub(crate) struct Place {
    /// The number of the batch that has begun, or of the next one.
    pub(crate) no: u64,
    /// The number of the next record.
    pub(crate) rec: u64,
}

impl Place {
    /// The place after one more record, which may end the batch.
    pub(crate) fn next(self, ends: bool) -> Place
        requires no { self.no + 1 < 2 ^ 64 }
        requires rec { self.rec + 1 < 2 ^ 64 }
        ensures no { result.no ≡ (if ends then self.no + 1 else self.no) }
        ensures rec { result.rec ≡ self.rec + 1 }
    {
        Place {
            no: if ends { self.no + 1 } else { self.no },
            rec: self.rec + 1,
        }
    }
}

/// What has been read of the batch at hand.
#[derive(Drop)]
pub(crate) enum Begun {
    /// No batch has begun.
    Nothing,
    /// Operations alone, of which the first is record `first`.
    Sound { first: u64, batch: Batch },
    /// Record `rec` is the first one at fault.
    Faulty { rec: u64, why: Why },
}

impl Begun {
    /// What has begun once this entry is read. The item that the entry completes is added to the list.
    pub(crate) fn after(
        self,
        alloc: Global,
        items: &mut Vec<Item>,
        place: Place,
        entry: Entry,
    ) -> Result<Begun, AllocError>
        ensures { IfOk result (λ begun. TakesEntry items.old.items items.new.items place.no place.rec self entry begun) }
    {
        match self {
            Begun::Nothing => begin(alloc, items, place, entry),
            Begun::Sound { first, batch } => go_on(items, place, first, batch, entry),
            Begun::Faulty { rec, why } => skip(items, place, rec, why, entry),
        }
    }

    /// Adds the item of the batch that the end of the text cuts off, if one has begun.
    pub(crate) fn cut_off(self, items: &mut Vec<Item>, place: Place) -> Result<(), AllocError>
        requires { 0 < place.rec }
        ensures { OnOk result (items.new.items ≡ items.old.items ++ coming place.no place.rec self []) }
    {
        match self {
            Begun::Nothing => Ok(()),
            Begun::Sound { .. } => {
                items.push(Item::Bad {
                    no: place.no,
                    rec: place.rec - 1,
                    why: Why::Cut,
                })?;
                Ok(())
            }
            Begun::Faulty { rec, why } => {
                items.push(Item::Bad {
                    no: place.no,
                    rec,
                    why,
                })?;
                Ok(())
            }
        }
    }
}

// The entry after one that ended a batch, or the first one of all.
fn begin(
    alloc: Global,
    items: &mut Vec<Item>,
    place: Place,
    entry: Entry,
) -> Result<Begun, AllocError>
    ensures { IfOk result (λ begun. TakesEntry items.old.items items.new.items place.no place.rec Begun.Nothing entry begun) }
{
    match entry {
        Entry::Operation(op) => {
            let mut batch = Batch::new(alloc);
            batch.push(&op)?;
            Ok(Begun::Sound {
                first: place.rec,
                batch,
            })
        }
        Entry::End => {
            items.push(Item::Batch {
                no: place.no,
                first: place.rec,
                batch: Batch::new(alloc),
            })?;
            Ok(Begun::Nothing)
        }
        Entry::Report => {
            items.push(Item::Report)?;
            Ok(Begun::Nothing)
        }
        Entry::Malformed(why) => Ok(Begun::Faulty {
            rec: place.rec,
            why,
        }),
    }
}

// An entry after operations alone.
fn go_on(
    items: &mut Vec<Item>,
    place: Place,
    first: u64,
    mut batch: Batch,
    entry: Entry,
) -> Result<Begun, AllocError>
    ensures { IfOk result (λ begun. TakesEntry items.old.items items.new.items place.no place.rec (Begun.Sound first batch) entry begun) }
{
    match entry {
        Entry::Operation(op) => {
            batch.push(&op)?;
            Ok(Begun::Sound { first, batch })
        }
        Entry::End => {
            items.push(Item::Batch {
                no: place.no,
                first,
                batch,
            })?;
            Ok(Begun::Nothing)
        }
        // A report is asked for between batches alone.
        Entry::Report => Ok(Begun::Faulty {
            rec: place.rec,
            why: Why::Kind,
        }),
        Entry::Malformed(why) => Ok(Begun::Faulty {
            rec: place.rec,
            why,
        }),
    }
}

// An entry after a fault: only the end of the batch counts.
fn skip(
    items: &mut Vec<Item>,
    place: Place,
    rec: u64,
    why: Why,
    entry: Entry,
) -> Result<Begun, AllocError>
    ensures { IfOk result (λ begun. TakesEntry items.old.items items.new.items place.no place.rec (Begun.Faulty rec why) entry begun) }
{
    if !entry.is_end() {
        return Ok(Begun::Faulty { rec, why });
    }
    items.push(Item::Bad {
        no: place.no,
        rec,
        why,
    })?;
    Ok(Begun::Nothing)
}
