//! The table of problems: what is found in it, and how one of its rows changes.
ghost use Rattle.std.specs.Prelude.{◌≡◌, ◌==◌, ◌<◌, ◌≤◌, ℕ, Some, None, length, map, take, position, count_by, remove, is_none, is_some, slice_get, IsSome, if◌then◌else◌, vec_capacity};
ghost use Rattle.std.specs.Option.{option_map};
ghost use Rattle.std.specs.List.{list_any};
ghost use Rattle.indexmap.specs.IndexMap.{index_map_len};
ghost use Rattle.ag_board.specs.Inside.{AreTaken, is_open_row, is_free_row, row_passes, verdict_at, with_verdict, with_handle, handle_at, is_decided_row, tally_in, with_one, HasRoom};
ghost use Rattle.ag_board.specs.declared.entry.Posted.TheVariants as posts;

use crate::entry::{Posted, Tally};
use crate::history::History;
use crate::slot::{Out, Slot};
use ag_stream::Problem;
use ag_verdict::Verdict;
use indexmap::IndexMap;
use std::sync::Arc;

/// Whether the problem with a number has no verdict.
fn is_open(table: &IndexMap<Arc<Problem>, Slot>, number: u32) -> bool
    ensures { result ≡ row_passes is_open_row table.now.entries number }
{
    match table.get_index(number as usize) {
        Some((_, slot)) => slot.verdict.is_none(),
        None => false,
    }
}

/// Whether the problem with a number has no verdict and its handle is here.
fn is_free(table: &IndexMap<Arc<Problem>, Slot>, number: u32) -> bool
    ensures { result ≡ row_passes is_free_row table.now.entries number }
{
    match table.get_index(number as usize) {
        Some((_, slot)) => slot.verdict.is_none() && slot.handle.is_some(),
        None => false,
    }
}

/// The place of the first of these problems that is free. None of those in front of `from` is.
pub(crate) fn free_place(
    table: &IndexMap<Arc<Problem>, Slot>,
    numbers: &[u32],
    from: usize,
) -> Option<usize>
    requires within { from ≤ length numbers.now }
    requires taken { AreTaken table.now.entries (take from numbers.now) }
    ensures { result ≡ position (row_passes is_free_row table.now.entries) numbers.now }
{
    match first_free(table, &numbers[from..]) {
        Some(place) => Some(from + place),
        None => None,
    }
}

/// The place of the first of these problems that is free.
fn first_free(table: &IndexMap<Arc<Problem>, Slot>, numbers: &[u32]) -> Option<usize>
    ensures { result ≡ position (row_passes is_free_row table.now.entries) numbers.now }
{
    numbers.iter().position(|n| is_free(table, *n))
}

/// How many of these problems have no verdict.
pub(crate) fn undecided(table: &IndexMap<Arc<Problem>, Slot>, numbers: &[u32]) -> usize
    ensures { result ≡ count_by (row_passes is_open_row table.now.entries) numbers.now }
{
    numbers.iter().filter(|n| is_open(table, **n)).count()
}

/// The verdict of the problem with a number, if it has one.
pub(crate) fn verdict_of<'a>(
    table: &IndexMap<Arc<Problem>, Slot>,
    history: &'a History,
    number: u32,
) -> Option<&'a Arc<Verdict>>
    ensures { option_map (λ v. v.now.value) result ≡ verdict_at history.now.entries table.now.entries number }
{
    let (_, slot) = table.get_index(number as usize)?;
    let entry = slot.verdict?;
    history.verdict_at(entry)
}

/// Takes the handle of the problem with a number.
pub(crate) fn lend_handle(table: &mut IndexMap<Arc<Problem>, Slot>, number: u32) -> Arc<Problem>
    requires { IsSome (handle_at table.old.entries number) }
    ensures rows { table.new.entries ≡ with_handle table.old.entries number None }
    ensures handle { handle_at table.old.entries number ≡ Some result }
{
    let slot = table.get_index_mut(number as usize).unwrap();
    slot.handle.take().unwrap()
}

/// Puts the handle of the problem with a number back.
pub(crate) fn put_handle(
    table: &mut IndexMap<Arc<Problem>, Slot>,
    number: u32,
    handle: Arc<Problem>,
)
    requires { number < index_map_len table.old }
    ensures { table.new.entries ≡ with_handle table.old.entries number (Some handle) }
{
    let slot = table.get_index_mut(number as usize).unwrap();
    slot.handle = Some(handle);
}

/// Puts the handle back where the claim is live.
pub(crate) fn take_back(table: &mut IndexMap<Arc<Problem>, Slot>, out: Out, handle: Arc<Problem>)
    requires { out.problem < index_map_len table.old }
    ensures { table.new.entries
        ≡ (if out.is_live then with_handle table.old.entries out.problem (Some handle) else table.old.entries) }
{
    if out.is_live {
        put_handle(table, out.problem, handle);
    }
}

/// Whether the problem with a number has a verdict.
pub(crate) fn is_decided(table: &IndexMap<Arc<Problem>, Slot>, number: u32) -> bool
    ensures { result ≡ is_decided_row table.now.entries number }
{
    match table.get_index(number as usize) {
        Some((_, slot)) => slot.verdict.is_some(),
        None => false,
    }
}

/// Keeps the verdict that the entry at a position posts.
fn set_verdict(table: &mut IndexMap<Arc<Problem>, Slot>, number: u32, entry: u32)
    requires { number < index_map_len table.old }
    ensures { table.new.entries ≡ with_verdict table.old.entries number entry }
{
    let slot = table.get_index_mut(number as usize).unwrap();
    slot.verdict = Some(entry);
}

/// Keeps the verdict that the entry at a position posts, where the problem has none.
pub(crate) fn keep_verdict(
    table: &mut IndexMap<Arc<Problem>, Slot>,
    number: u32,
    entry: u32,
) -> Posted
    requires { number < index_map_len table.old }
    ensures answer { result ≡ (if is_decided_row table.old.entries number then posts.Already else posts.Kept) }
    ensures rows { table.new.entries ≡ (if is_decided_row table.old.entries number then table.old.entries
        else with_verdict table.old.entries number entry) }
{
    if is_decided(table, number) {
        return Posted::Already;
    }
    set_verdict(table, number, entry);
    Posted::Kept
}

/// The place of the claim with a number among those that are out.
fn place_of(outs: &[Out], claim: u64) -> Option<usize>
    ensures { result ≡ position (λ o. o.claim == claim) outs.now }
{
    outs.iter().position(|o| o.claim == claim)
}

/// Takes the claim with a number from those that are out.
pub(crate) fn take_out(outs: &mut Vec<Out>, claim: u64) -> Out
    requires { IsSome (position (λ o. o.claim == claim) outs.old.items) }
    ensures room { vec_capacity outs.new ≡ vec_capacity outs.old }
    ensures out { (at : ℕ) × (position (λ o. o.claim == claim) outs.old.items ≡ Some at)
        × (slice_get outs.old.items at ≡ Some result) × (outs.new.items ≡ remove outs.old.items at) }
{
    let at = place_of(outs.as_slice(), claim).unwrap();
    outs.remove(at)
}

/// Whether a number is among these.
pub(crate) fn has_number(numbers: &[u32], number: u32) -> bool
    ensures { result ≡ list_any (λ n. n == number) numbers.now }
{
    numbers.iter().any(|n| *n == number)
}

/// How many of these problems have a verdict of each kind, as a tally of that revision.
pub(crate) fn tally_of(
    table: &IndexMap<Arc<Problem>, Slot>,
    history: &History,
    numbers: &[u32],
    revision: u32,
) -> Tally
    requires few { length numbers.now ≤ 1024 }
    ensures { result ≡ tally_in revision (map (verdict_at history.now.entries table.now.entries) numbers.now) }
{
    let mut tally = Tally {
        revision,
        proved: 0,
        refuted: 0,
        consistent: 0,
        inconsistent: 0,
        unknown: 0,
    };
    for number in numbers {
        if let Some(verdict) = verdict_of(table, history, *number) {
            tally = counted(tally, verdict);
        }
    }
    tally
}

/// The tally with one verdict more.
fn counted(tally: Tally, verdict: &Verdict) -> Tally
    requires room { HasRoom tally }
    ensures { result ≡ with_one tally verdict.now }
{
    match verdict {
        Verdict::Proved { .. } => Tally {
            proved: tally.proved + 1,
            ..tally
        },
        Verdict::Refuted { .. } => Tally {
            refuted: tally.refuted + 1,
            ..tally
        },
        Verdict::Consistent { .. } => Tally {
            consistent: tally.consistent + 1,
            ..tally
        },
        Verdict::Inconsistent => Tally {
            inconsistent: tally.inconsistent + 1,
            ..tally
        },
        Verdict::Unknown { .. } => Tally {
            unknown: tally.unknown + 1,
            ..tally
        },
    }
}
