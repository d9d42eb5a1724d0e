// Groups of rows by code, by counting.
ghost use Rattle.std.specs.Prelude.{◌≡◌, ◌<◌, ◌≤◌, ◌+◌, ◌-◌, ◌^◌, ◌==◌, [], ℕ, true, length, map, slice_index, replicate, count_by, vec_len, List, OnOk, IfOk};
ghost use Rattle.std.specs.List.{All, list_any};
ghost use Rattle.stripped_partition.specs.Groups.{start_at, IsCut, IsFlat};
ghost use Rattle.stripped_partition.specs.Removed.{greatest, largest_part};
ghost use Rattle.stripped_partition.specs.Splits.{AddsParts, AreSplit, IsReady, Places};

use rel_base::{MOST_ROWS, RowNo};
use std::alloc::{AllocError, Global};

// Groups of rows, one after another.
#[derive(Drop)]
pub(crate) struct Groups {
    pub(crate) rows: Vec<RowNo>,
    pub(crate) ends: Vec<u32>,
}

impl Groups {
    // No group, which takes no memory.
    pub(crate) fn empty(alloc: Global) -> Groups {
        Groups {
            rows: Vec::new(alloc),
            ends: Vec::new(alloc),
        }
    }

    // A copy that takes no more memory than it needs.
    fn fitted(&self, alloc: Global) -> Result<Groups, AllocError>
        ensures { IfOk result (λ g. (groups : List (List ℕ)) → IsFlat self.now.rows.items self.now.ends.items groups → IsFlat g.rows.items g.ends.items groups) }
    {
        Ok(Groups {
            rows: self.rows.to_vec(alloc)?,
            ends: self.ends.to_vec(alloc)?,
        })
    }
}

// From here on a slot holds the place of the next row with its code, and below it how many rows have the code.
const PLACED: u32 = 1 << 31;

// Clearing so many slots one after another takes as long as clearing one by its code.
const STRIDE: usize = 8;

// In a group of so few rows codes are compared with each other before any takes a slot: mostly no two of them are equal.
const FEW_ROWS: usize = 6;

// Where a group begins: where the one before it ends.
pub(crate) fn start_of(ends: &[u32], k: usize) -> usize
    requires { k ≤ length ends.now }
    ensures { result ≡ start_at ends.now k }
{
    if k == 0 { 0 } else { ends[k - 1] as usize }
}

// Counts each code that has a slot.
fn count(slots: &mut [u32], codes: &[u32])
    requires short { length codes.now < 2 ^ 31 }
    requires clear { slots.old ≡ replicate (length slots.old) 0 }
    ensures { (c : ℕ) → c < length slots.new → slice_index slots.new c ≡ count_by (λ d. d == c) codes.now }
{
    for code in codes {
        let slot = *code as usize;
        if slot < slots.len() {
            slots[slot] += 1;
        }
    }
}

// Clears the slots of these codes, where no other holds anything.
fn clear(slots: &mut [u32], codes: &[u32])
    requires { (c : ℕ) → c < length slots.old → count_by (λ d. d == c) codes.now ≡ 0 → slice_index slots.old c ≡ 0 }
    ensures { slots.new ≡ replicate (length slots.old) 0 }
{
    if slots.len() / STRIDE <= codes.len() {
        slots.fill(0);
        return;
    }
    for code in codes {
        let slot = *code as usize;
        if slot < slots.len() {
            slots[slot] = 0;
        }
    }
}

// The greatest of what the slots of these codes hold.
fn greatest_slot(slots: &[u32], codes: &[u32]) -> u32
    requires { All (λ code. code < length slots.now) codes.now }
    ensures { result ≡ greatest (map (slice_index slots.now) codes.now) }
{
    let mut most = 0;
    for code in codes {
        most = most.max(slots[*code as usize]);
    }
    most
}

// How often the code stands among these that stands there most often, where all slots are clear. It leaves them clear.
pub(crate) fn largest_part(slots: &mut [u32], codes: &[u32]) -> u32
    requires short { length codes.now < 2 ^ 31 }
    requires clear { slots.old ≡ replicate (length slots.old) 0 }
    requires within { All (λ code. code < length slots.old) codes.now }
    ensures value { result ≡ largest_part codes.now }
    ensures clear { slots.new ≡ replicate (length slots.old) 0 }
{
    count(slots, codes);
    let most = greatest_slot(slots, codes);
    clear(slots, codes);
    most
}

// Puts a row into the part of its code. The first row of a part makes room for all of it.
fn place(groups: &mut Groups, slots: &mut [u32], row: RowNo, code: u32) -> Result<(), AllocError>
    requires short { vec_len groups.old.rows < 2 ^ 31 }
    requires room { code < length slots.old → slice_index slots.old code < 2 ^ 31 → vec_len groups.old.rows + slice_index slots.old code < 2 ^ 31 }
    requires within { code < length slots.old → 2 ^ 31 ≤ slice_index slots.old code → slice_index slots.old code - 2 ^ 31 < vec_len groups.old.rows }
    ensures { OnOk result (Places row code groups.old.rows.items groups.old.ends.items slots.old groups.new.rows.items groups.new.ends.items slots.new) }
{
    let slot = code as usize;
    if slot >= slots.len() {
        return Ok(());
    }
    let held = slots[slot];
    if held >= PLACED {
        groups.rows[(held - PLACED) as usize] = row;
        slots[slot] = held + 1;
    } else if held >= 2 {
        let start = groups.rows.len() as u32;
        let end = start + held;
        groups.rows.resize(end as usize, row)?;
        groups.ends.push(end)?;
        slots[slot] = PLACED + start + 1;
    }
    Ok(())
}

// Adds the parts of a group.
fn split_group(
    groups: &mut Groups,
    slots: &mut [u32],
    rows: &[RowNo],
    codes: &[u32],
) -> Result<(), AllocError>
    requires { IsReady groups.old slots.old rows.now codes.now }
    ensures parts { OnOk result (AddsParts (length slots.old) rows.now codes.now groups.old groups.new) }
    ensures slots { OnOk result ((c : ℕ) → c < length slots.new → count_by (λ d. d == c) codes.now ≡ 0 → slice_index slots.new c ≡ 0) }
{
    count(slots, codes);
    for (i, row) in rows.iter().enumerate() {
        place(groups, slots, *row, codes[i])?;
    }
    Ok(())
}

// Adds the one part of a group of two rows, if they have one code and it has a slot, of which there are so many.
//
// Most groups of partitions by a few columns are pairs: for one it takes no slot, and so no look at memory that is far.
fn split_pair(
    groups: &mut Groups,
    slots: usize,
    rows: &[RowNo],
    codes: &[u32],
) -> Result<(), AllocError>
    requires pair { length rows.now ≡ 2 }
    requires coded { length codes.now ≡ length rows.now }
    requires short { vec_len groups.old.rows + length rows.now ≤ MOST_ROWS }
    ensures { OnOk result (AddsParts slots rows.now codes.now groups.old groups.new) }
{
    let code = codes[0];
    if codes[1] != code || code as usize >= slots {
        return Ok(());
    }
    groups.rows.push(rows[0])?;
    groups.rows.push(rows[1])?;
    groups.ends.push(groups.rows.len() as u32)?;
    Ok(())
}

// Whether one of the codes is this one.
fn has_code(codes: &[u32], code: u32) -> bool
    ensures { result ≡ list_any (λ d. d == code) codes.now }
{
    codes.iter().any(|other| *other == code)
}

// Whether no two of the codes are equal, so that the rows that have them make no part. It compares each with each.
fn are_distinct(codes: &[u32]) -> bool
    ensures { result ≡ true → (c : ℕ) → count_by (λ d. d == c) codes.now ≤ 1 }
{
    for k in 1..codes.len() {
        if has_code(&codes[..k], codes[k]) {
            return false;
        }
    }
    true
}

// Adds the parts of a group, where all slots are clear, and leaves them clear.
fn split_clear(
    groups: &mut Groups,
    slots: &mut [u32],
    rows: &[RowNo],
    codes: &[u32],
) -> Result<(), AllocError>
    requires { IsReady groups.old slots.old rows.now codes.now }
    ensures parts { OnOk result (AddsParts (length slots.old) rows.now codes.now groups.old groups.new) }
    ensures clear { OnOk result (slots.new ≡ replicate (length slots.old) 0) }
{
    if rows.len() == 2 {
        return split_pair(groups, slots.len(), rows, codes);
    }
    if rows.len() <= FEW_ROWS && are_distinct(codes) {
        return Ok(());
    }
    split_group(groups, slots, rows, codes)?;
    clear(slots, codes);
    Ok(())
}

// Adds the parts of each group.
fn split_groups(
    groups: &mut Groups,
    slots: &mut [u32],
    rows: &[RowNo],
    ends: &[u32],
    codes: &[u32],
) -> Result<(), AllocError>
    requires cut { IsCut rows.now ends.now }
    requires coded { length codes.now ≡ length rows.now }
    requires none { (groups.old.rows.items ≡ []) × (groups.old.ends.items ≡ []) }
    requires clear { slots.old ≡ replicate (length slots.old) 0 }
    ensures flat { OnOk result (AreSplit (length slots.old) rows.now ends.now codes.now groups.new) }
    ensures clear { OnOk result (slots.new ≡ replicate (length slots.old) 0) }
{
    let mut start = 0;
    for end in ends {
        let end = *end as usize;
        split_clear(groups, slots, &rows[start..end], &codes[start..end])?;
        start = end;
    }
    Ok(())
}

// The parts of two rows or more of each group by the codes of its rows, in place of what stood there. A code that has no slot makes no part.
fn split_over(
    groups: &mut Groups,
    slots: &mut [u32],
    rows: &[RowNo],
    ends: &[u32],
    codes: &[u32],
) -> Result<(), AllocError>
    requires cut { IsCut rows.now ends.now }
    requires coded { length codes.now ≡ length rows.now }
    requires clear { slots.old ≡ replicate (length slots.old) 0 }
    ensures flat { OnOk result (AreSplit (length slots.old) rows.now ends.now codes.now groups.new) }
    ensures clear { OnOk result (slots.new ≡ replicate (length slots.old) 0) }
{
    groups.rows.clear();
    groups.ends.clear();
    split_groups(groups, slots, rows, ends, codes)
}

// What `split_over` makes, as a copy that fits.
pub(crate) fn split_in(
    alloc: Global,
    room: &mut Groups,
    slots: &mut [u32],
    rows: &[RowNo],
    ends: &[u32],
    codes: &[u32],
) -> Result<Groups, AllocError>
    requires cut { IsCut rows.now ends.now }
    requires coded { length codes.now ≡ length rows.now }
    requires clear { slots.old ≡ replicate (length slots.old) 0 }
    ensures flat { IfOk result (AreSplit (length slots.old) rows.now ends.now codes.now) }
    ensures clear { OnOk result (slots.new ≡ replicate (length slots.old) 0) }
{
    split_over(room, slots, rows, ends, codes)?;
    room.fitted(alloc)
}

// Splits groups of rows by their codes, which are below a bound, with slots of its own.
pub(crate) fn split(
    alloc: Global,
    rows: &[RowNo],
    ends: &[u32],
    codes: &[u32],
    bound: usize,
) -> Result<Groups, AllocError>
    requires cut { IsCut rows.now ends.now }
    requires coded { length codes.now ≡ length rows.now }
    ensures { IfOk result (AreSplit bound rows.now ends.now codes.now) }
{
    let mut slots = vec![in alloc; 0u32; bound]?;
    let mut groups = Groups::empty(alloc);
    split_over(&mut groups, &mut slots, rows, ends, codes)?;
    groups.rows.shrink_to_fit();
    groups.ends.shrink_to_fit();
    Ok(groups)
}
