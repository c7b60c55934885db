//! What a list needs before it is entered: numbers, handles, the problems that are new, and the answer.
ghost use Rattle.std.specs.Prelude.{◌≡◌, ◌+◌, ◌<◌, ◌≤◌, ◌==◌, ◌++◌, ◌&&◌, ℕ, not, Some, None, All, IfOk, IfSome, OnOk, length, map, position, count_by, slice_get, nat_eq, if◌then◌else◌, vec_capacity};
ghost use Rattle.std.specs.List.{list_any};
ghost use Rattle.std.specs.Option.{option_map};
ghost use Rattle.std.specs.HashSet.{contains};
ghost use Rattle.indexmap.specs.IndexMap.{index_map_len};
ghost use Rattle.ag_board.specs.Entries.{plain_list};
ghost use Rattle.ag_board.specs.Machine.{same_problem};
ghost use Rattle.ag_board.specs.Store.{most_pairs};
ghost use Rattle.ag_board.specs.Inside.{problems_in, problem_at, with_problem, is_decided_row};
ghost use Rattle.ag_board.specs.Planned.{IsNew, AreNumbered, IsPlanOf, problems_listed, handled, retired_problem, told_cancelled, outs_retired, rows_retired, parts_in};

use crate::entry::{Cancelled, Published};
use crate::slot::{Out, Slot};
use crate::table::{is_decided, put_handle};
use ag_base::{List, OutOfMemory};
use ag_stream::Problem;
use ag_verdict::Key;
use indexmap::IndexMap;
use std::alloc::Global;
use std::collections::HashSet;
use std::sync::Arc;

/// The problems that no revision has, and the numbers of a list's problems, behind those of the table
/// where they are new.
#[derive(Drop)]
pub struct Numbered {
    pub(crate) fresh: IndexMap<Arc<Problem>, Slot>,
    pub(crate) numbers: Vec<u32>,
}

/// What a list needs: the new problems and the numbers, the list with the problems that the table
/// shares, for each claim that is out a further handle where the list cancels it, the parts of the new
/// problems, and the answer for the caller and for the history.
#[derive(Drop)]
pub struct Plan {
    pub(crate) fresh: IndexMap<Arc<Problem>, Slot>,
    pub(crate) numbers: Vec<u32>,
    pub(crate) shared: List<(Key, Arc<Problem>)>,
    pub(crate) handles: Vec<Option<Arc<Problem>>>,
    pub(crate) parts: u32,
    pub(crate) answer: Published,
    pub(crate) entered: Published,
}

/// Plans a list that is to be the revision with this number.
pub(crate) fn plan_of(
    alloc: Global,
    table: &IndexMap<Arc<Problem>, Slot>,
    out: &[Out],
    list: &List<(Key, Arc<Problem>)>,
    revision: u32,
) -> Result<Plan, OutOfMemory>
    requires few { length list.now ≤ 1024 }
    requires rows { index_map_len table.now ≤ most_pairs }
    requires numbered { All (λ o. o.problem < index_map_len table.now) out.now }
    ensures { IfOk result (λ p. IsPlanOf table.now.entries out.now (plain_list list.now) revision p) }
{
    let Numbered { fresh, numbers } = numbers_of(alloc, table, list)?;
    let shared = shared_list(alloc, table, &fresh, numbers.as_slice(), list)?;
    let handles = handles_of(alloc, table, out, numbers.as_slice())?;
    let answer = Published {
        revision,
        count: list.len() as u32,
        carried: carried(table, numbers.as_slice()) as u32,
        cancelled: told(alloc, out, handles.as_slice())?,
    };
    let entered = answer.share(alloc)?;
    let parts = parts_of(&fresh);
    Ok(Plan {
        fresh,
        numbers,
        shared,
        handles,
        parts,
        answer,
        entered,
    })
}

/// Numbers a list's problems.
fn numbers_of(
    alloc: Global,
    table: &IndexMap<Arc<Problem>, Slot>,
    list: &List<(Key, Arc<Problem>)>,
) -> Result<Numbered, OutOfMemory>
    requires few { length list.now ≤ 1024 }
    requires rows { index_map_len table.now ≤ most_pairs }
    ensures numbered { IfOk result (λ n. AreNumbered (problems_in table.now.entries)
        (problems_listed (plain_list list.now)) n.fresh.entries n.numbers.items) }
    ensures few { IfOk result (λ n. index_map_len n.fresh ≤ length list.now) }
{
    let mut fresh = IndexMap::new(alloc);
    let mut numbers = Vec::new(alloc);
    for (_, problem) in list.as_slice() {
        let number = number_of(table, &mut fresh, problem)?;
        numbers.push(number)?;
    }
    Ok(Numbered { fresh, numbers })
}

/// The number of a problem in the table, or else behind it among the new ones, where it goes last if
/// it isn't there.
fn number_of(
    table: &IndexMap<Arc<Problem>, Slot>,
    fresh: &mut IndexMap<Arc<Problem>, Slot>,
    problem: &Arc<Problem>,
) -> Result<u32, OutOfMemory>
    requires rows { index_map_len table.now ≤ most_pairs }
    requires few { index_map_len fresh.old ≤ 1024 }
    requires each { All IsNew fresh.old.entries }
    ensures number { IfOk result (λ n.
        slice_get (problems_in table.now.entries ++ problems_in fresh.new.entries) n ≡ Some problem.now.value) }
    ensures fresh { OnOk result (problems_in table.now.entries ++ problems_in fresh.new.entries
        ≡ with_problem (problems_in table.now.entries ++ problems_in fresh.old.entries) problem.now.value) }
    ensures each { OnOk result (All IsNew fresh.new.entries) }
    ensures few { OnOk result (index_map_len fresh.new ≤ index_map_len fresh.old + 1) }
{
    match place_in(table, problem) {
        Some(number) => Ok(number as u32),
        None => Ok((table.len() + fresh_number(fresh, problem)?) as u32),
    }
}

/// The place of the row with an equal problem, where there is one.
fn place_in(rows: &IndexMap<Arc<Problem>, Slot>, problem: &Arc<Problem>) -> Option<usize>
    ensures place { result ≡ position (same_problem problem.now.value) (problems_in rows.now.entries) }
    ensures within { IfSome result (λ n. n < index_map_len rows.now) }
{
    rows.get_index_of(problem)
}

/// The place of a problem among the new ones, where it goes last if it isn't there.
fn fresh_number(
    fresh: &mut IndexMap<Arc<Problem>, Slot>,
    problem: &Arc<Problem>,
) -> Result<usize, OutOfMemory>
    requires each { All IsNew fresh.old.entries }
    ensures number { IfOk result (λ n. slice_get (problems_in fresh.new.entries) n ≡ Some problem.now.value) }
    ensures fresh { OnOk result (problems_in fresh.new.entries
        ≡ with_problem (problems_in fresh.old.entries) problem.now.value) }
    ensures each { OnOk result (All IsNew fresh.new.entries) }
    ensures few { OnOk result (index_map_len fresh.new ≤ index_map_len fresh.old + 1) }
    ensures within { IfOk result (λ n. n ≤ index_map_len fresh.old) }
{
    match place_in(fresh, problem) {
        Some(number) => Ok(number),
        None => {
            let number = fresh.len();
            let slot = Slot {
                verdict: None,
                handle: Some(Arc::try_clone(problem)?),
            };
            fresh.insert(Arc::try_clone(problem)?, slot)?;
            Ok(number)
        }
    }
}

/// The list with the problems that the table or the new ones share.
fn shared_list(
    alloc: Global,
    table: &IndexMap<Arc<Problem>, Slot>,
    fresh: &IndexMap<Arc<Problem>, Slot>,
    numbers: &[u32],
    list: &List<(Key, Arc<Problem>)>,
) -> Result<List<(Key, Arc<Problem>)>, OutOfMemory>
    requires { AreNumbered (problems_in table.now.entries)
        (problems_listed (plain_list list.now)) fresh.now.entries numbers.now }
    ensures { IfOk result (λ shared. plain_list shared ≡ plain_list list.now) }
{
    let mut shared = List::new(alloc);
    for place in 0..list.len() {
        let (key, _) = &list.as_slice()[place];
        let problem = shared_problem(table, fresh, numbers[place])?;
        shared.push((key.share()?, problem))?;
    }
    Ok(shared)
}

/// The problem with a number, as the table or the new ones share it.
fn shared_problem(
    table: &IndexMap<Arc<Problem>, Slot>,
    fresh: &IndexMap<Arc<Problem>, Slot>,
    number: u32,
) -> Result<Arc<Problem>, OutOfMemory>
    requires { number < index_map_len table.now + index_map_len fresh.now }
    ensures { IfOk result (λ p.
        slice_get (problems_in table.now.entries ++ problems_in fresh.now.entries) number ≡ Some p.value) }
{
    let number = number as usize;
    let (problem, _) = if number < table.len() {
        table.get_index(number).unwrap()
    } else {
        fresh.get_index(number - table.len()).unwrap()
    };
    Ok(Arc::try_clone(problem)?)
}

/// How many of these problems have a verdict.
fn carried(table: &IndexMap<Arc<Problem>, Slot>, numbers: &[u32]) -> usize
    ensures { result ≡ count_by (is_decided_row table.now.entries) numbers.now }
{
    numbers.iter().filter(|n| is_decided(table, **n)).count()
}

/// How many parts these problems have.
fn parts_of(fresh: &IndexMap<Arc<Problem>, Slot>) -> u32
    requires { index_map_len fresh.now ≤ 1024 }
    ensures { result ≡ parts_in fresh.now.entries }
{
    let mut parts = 0;
    for place in 0..fresh.len() {
        parts += parts_at(fresh, place);
    }
    parts
}

/// How many parts the problem at a place has.
fn parts_at(fresh: &IndexMap<Arc<Problem>, Slot>, place: usize) -> u32
    requires { place < index_map_len fresh.now }
    ensures parts { option_map (λ p. length p.parts) (slice_get (problems_in fresh.now.entries) place) ≡ Some result }
    ensures few { result ≤ 16384 }
{
    let (problem, _) = fresh.get_index(place).unwrap();
    problem.know();
    problem.draft().parts.len() as u32
}

/// The set of these numbers.
fn set_of(alloc: Global, numbers: &[u32]) -> Result<HashSet<u32>, OutOfMemory>
    ensures { IfOk result (λ set. (n : ℕ) → contains nat_eq set n ≡ list_any (λ m. m == n) numbers.now) }
{
    let mut set = HashSet::new(alloc);
    for number in numbers {
        set.insert(*number)?;
    }
    Ok(set)
}

/// For each claim that is out a further handle, where it is live and its problem has none of these numbers.
fn handles_of(
    alloc: Global,
    table: &IndexMap<Arc<Problem>, Slot>,
    out: &[Out],
    numbers: &[u32],
) -> Result<Vec<Option<Arc<Problem>>>, OutOfMemory>
    requires { All (λ o. o.problem < index_map_len table.now) out.now }
    ensures { IfOk result (λ hs. handled hs.items ≡ map (retired_problem table.now.entries numbers.now) out.now) }
{
    let kept = set_of(alloc, numbers)?;
    let mut handles = Vec::new(alloc);
    for claim in out {
        let handle = handle_where(is_needless(&kept, claim), table, claim.problem)?;
        handles.push(handle)?;
    }
    Ok(handles)
}

/// Whether a claim is live and its problem isn't among those with these numbers.
fn is_needless(kept: &HashSet<u32>, claim: &Out) -> bool
    ensures { result ≡ (claim.now.is_live && not (contains nat_eq kept.now claim.now.problem)) }
{
    claim.is_live && !kept.contains(&claim.problem)
}

/// A further handle of the problem with a number, where one is wanted.
fn handle_where(
    is_wanted: bool,
    table: &IndexMap<Arc<Problem>, Slot>,
    number: u32,
) -> Result<Option<Arc<Problem>>, OutOfMemory>
    requires { number < index_map_len table.now }
    ensures { IfOk result (λ h. option_map (λ a. a.value) h
        ≡ (if is_wanted then Some (problem_at table.now.entries number) else None)) }
{
    if !is_wanted {
        return Ok(None);
    }
    let (problem, _) = table.get_index(number as usize).unwrap();
    Ok(Some(Arc::try_clone(problem)?))
}

/// The claims that have a handle beside them.
fn told(
    alloc: Global,
    out: &[Out],
    handles: &[Option<Arc<Problem>>],
) -> Result<List<Cancelled>, OutOfMemory>
    requires { length handles.now ≡ length out.now }
    ensures { IfOk result (λ cancelled. cancelled ≡ told_cancelled out.now handles.now) }
{
    let mut cancelled = List::new(alloc);
    for place in 0..out.len() {
        if handles[place].is_some() {
            let Out { claim, seat, .. } = out[place];
            cancelled.push(Cancelled { claim, seat })?;
        }
    }
    Ok(cancelled)
}

/// Ends the life of the claims that have a handle beside them, whose problems get these handles.
pub(crate) fn retire(
    table: &mut IndexMap<Arc<Problem>, Slot>,
    outs: &mut Vec<Out>,
    handles: Vec<Option<Arc<Problem>>>,
)
    requires many { length handles.items ≡ length outs.old.items }
    requires numbered { All (λ o. o.problem < index_map_len table.old) outs.old.items }
    ensures outs { outs.new.items ≡ outs_retired outs.old.items handles.items }
    ensures room { vec_capacity outs.new ≡ vec_capacity outs.old }
    ensures rows { table.new.entries ≡ rows_retired table.old.entries outs.old.items handles.items }
{
    let mut place = 0;
    for handle in handles {
        if let Some(handle) = handle {
            let out = &mut outs[place];
            out.is_live = false;
            put_handle(table, out.problem, handle);
        }
        place += 1;
    }
}
