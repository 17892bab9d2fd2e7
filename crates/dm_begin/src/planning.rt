ghost use Rattle.std.specs.Prelude.{◌≡◌, ◌≤◌, ◌<◌, ◌^◌, false, Ok, IfOk, IfSome, map, slice_index_or, slice_set, vec_len};
ghost use Rattle.dm_types.specs.Faults.{HasCause};
ghost use Rattle.dm_disk_model.specs.Moments.{KeepsFiles};
ghost use Rattle.dm_slice.specs.Cover.{IsWithinTotal};
ghost use Rattle.dm_slice.specs.Plan.{opened_by, parts_by};
ghost use Rattle.dm_store.specs.Keeps.{Keeps, StaysNear};
ghost use Rattle.dm_store.specs.Lives.{changed_life};
ghost use Rattle.dm_store.specs.Origin.{said_of};
ghost use Rattle.dm_store.specs.Store.{IsStore, view_of};
ghost use Rattle.dm_answers.specs.Faults.{desk_kind};
ghost use Rattle.dm_answers.specs.Plan.{PlanAnswers, slice_pass};
ghost use Rattle.dm_answers.specs.Running.{RunsWith};
ghost use Rattle.dm_begin.specs.Round.{IsMade, MayRound, PlanChecks, with_round};

use crate::passing::fault_of;
use dm_answers::{DeskFault, SlicePass, SlicePasses};
use dm_disk_model::Disk;
use dm_edge::Origin;
use dm_slice::{Cover, Part, Plan};
use dm_store::{Life, Pass, Store, find_life, life_of, live_at};
use dm_types::{ItemId, NoMemory, let_go};
use std::alloc::Global;

/// What a round is planned of.
#[derive(Clone, Copy)]
struct Round {
    /// The content's length in bytes, where it is known.
    total: Option<u64>,
    /// The number of the round.
    round: u32,
}

/// A round, before it is put into its life.
#[derive(Drop)]
struct Planned {
    cover: Cover,
    plan: Plan,
    passes: SlicePasses,
}

/// Plans the next round of at most `n` parts.
pub fn plan<D: Disk, O: Origin>(
    store: &mut Store<D, O>,
    pass: &Pass,
    n: u32,
) -> Result<SlicePasses, DeskFault>
    requires store { IsStore D.tells D.history store.old }
    requires some { 1 ≤ n }
    requires few { n ≤ 16 }
    ensures store { IsStore D.tells D.history store.new }
    ensures answers { PlanAnswers (view_of store.old) (view_of store.new) pass.now n result }
    ensures keeps { Keeps D.tells D.history (λ o. said_of (O.says o)) (view_of store.old) (view_of store.new) }
    ensures beside { D.tells → KeepsFiles (D.history store.old.disk) (D.history store.new.disk) }
    ensures cause { HasCause desk_kind (D.faults store.old.disk) (D.faults store.new.disk) result }
    ensures far { StaysNear (D.far store.old.disk) (D.far store.new.disk) (view_of store.old) (view_of store.new) }
{
    if store.broken {
        return Err(DeskFault::Broken);
    }
    let round = match check_plan(store, pass) {
        Ok(round) => round,
        Err(fault) => return Err(fault),
    };
    let Ok(planned) = make_round(store, pass, round, n) else {
        return Err(DeskFault::NoMemory);
    };
    let Planned {
        cover,
        plan,
        passes,
    } = planned;
    put_round(&mut store.lives, pass.id, round.round, cover, plan);
    Ok(passes)
}

/// The next round of the attempt, where one may be planned.
fn check_plan<D: Disk, O: Origin>(store: &Store<D, O>, pass: &Pass) -> Result<Round, DeskFault>
    requires store { IsStore D.tells D.history store.now }
    requires whole { store.now.broken ≡ false }
    ensures { PlanChecks (view_of store.now) pass.now result }
{
    match live_at(store, pass.id, pass.attempt) {
        Ok(_) => {}
        Err(gone) => return Err(fault_of(gone)),
    }
    let Some(item) = store.items.get(pass.id) else {
        unreachable!();
    };
    let Some(life) = life_of(&store.lives, pass.id) else {
        unreachable!();
    };
    match (item.key.is_some(), life.round.checked_add(1)) {
        (true, Some(round)) => Ok(Round {
            total: item.total,
            round,
        }),
        _ => Err(DeskFault::WrongState(item.phase)),
    }
}

/// The cover and the parts of the next round, and a pass for each part. It changes nothing.
fn make_round<D: Disk, O: Origin>(
    store: &Store<D, O>,
    pass: &Pass,
    round: Round,
    n: u32,
) -> Result<Planned, NoMemory>
    requires store { IsStore D.tells D.history store.now }
    requires whole { store.now.broken ≡ false }
    requires some { 1 ≤ n }
    requires few { n ≤ 16 }
    requires may { RunsWith (view_of store.now) pass.now.id pass.now.attempt (MayRound round) }
    ensures { IfOk result
        (λ planned. RunsWith (view_of store.now) pass.now.id pass.now.attempt (IsMade n store.now.limits.min_slice pass.now round planned)) }
{
    let Some(life) = life_of(&store.lives, pass.id) else {
        unreachable!();
    };
    let (cover, plan) = plan_life(life, round.total, n, store.limits.min_slice)?;
    let passes = passes_of(store.alloc, pass, round.round, &plan)?;
    Ok(Planned {
        cover,
        plan,
        passes,
    })
}

/// The cover of a life as a round makes it, and the round's parts.
fn plan_life(life: &Life, total: Option<u64>, n: u32, least: u64) -> Result<(Cover, Plan), NoMemory>
    requires some { 1 ≤ n }
    requires few { n ≤ 16 }
    requires least { 1 ≤ least }
    requires total { IfSome total (λ bytes. bytes ≤ 2 ^ 40) }
    requires within { IsWithinTotal total life.now.cover }
    ensures cover { IfOk result (λ both. both.0 ≡ opened_by total n least life.now.cover) }
    ensures plan { IfOk result (λ both. both.1 ≡ parts_by total n least life.now.cover) }
{
    let mut cover = life.cover.copy()?;
    let plan = match total {
        Some(total) => cover.plan(total, n, least)?,
        None => cover.plan_open()?,
    };
    Ok((cover, plan))
}

/// A pass for each part of a round.
fn passes_of(alloc: Global, pass: &Pass, round: u32, plan: &Plan) -> Result<SlicePasses, NoMemory>
    ensures { IfOk result (λ passes. passes ≡ map (slice_pass pass.now.id pass.now.attempt round) plan.now) }
{
    match list_passes(alloc, pass, round, plan.items()) {
        Ok(passes) => Ok(SlicePasses::from_vec(passes)),
        Err(NoMemory) => Err(NoMemory),
    }
}

fn list_passes(
    alloc: Global,
    pass: &Pass,
    round: u32,
    parts: &[Part],
) -> Result<Vec<SlicePass>, NoMemory>
    ensures { IfOk result
        (λ passes. passes.items ≡ map (slice_pass pass.now.id pass.now.attempt round) parts.now) }
{
    Ok(
        parts
            .iter()
            .map(|part| slice_pass(pass, round, part))
            .collect(alloc)?,
    )
}

/// What is shown with each piece of a part.
fn slice_pass(pass: &Pass, round: u32, part: &Part) -> SlicePass
    ensures { result ≡ slice_pass pass.now.id pass.now.attempt round part.now }
{
    SlicePass {
        id: pass.id,
        attempt: pass.attempt,
        round,
        index: part.index,
        first: part.first,
        end: part.end,
    }
}

/// Puts a round into the life of an id.
fn put_round(lives: &mut Vec<Life>, id: ItemId, round: u32, cover: Cover, plan: Plan)
    ensures { lives.new.items ≡ changed_life id.0 (with_round round cover plan) lives.old.items }
{
    match find_life(lives, id) {
        Some(place) => put_round_at(lives, place, round, cover, plan),
        None => {
            let_go(cover);
            let_go(plan);
        }
    }
}

fn put_round_at(lives: &mut Vec<Life>, place: usize, round: u32, cover: Cover, plan: Plan)
    requires { place < vec_len lives.old }
    ensures { (d : Life) → lives.new.items
        ≡ slice_set lives.old.items place (with_round round cover plan (slice_index_or lives.old.items place d)) }
{
    let life = &mut lives[place];
    life.cover = cover;
    life.round = round;
    life.plan = plan;
}
