ghost use Rattle.std.specs.Prelude.{◌≡◌, ◌+◌, ◌<◌, ◌≤◌, ◌↔◌, ◌⊎◌, ◌^◌, ◌++◌, ◌∷◌, [], false, IsTrue, None, Some, unwrap_or, IfSome, IfOk, OnOk, OnErr, MatchOption, length, map, ℕ};
ghost use Rattle.dm_slice.specs.Words.{IsWithin};
ghost use Rattle.dm_slice.specs.Plan.{AreAtSlices, FillsHoles, IsPlanned, IsPlannedOpen};
ghost use Rattle.dm_slice.specs.Cover.{IsCover, IsCoverWithin, IsRising, SamePlaces, joined, marked, normal_of};

use crate::plan::{Part, Plan, Rule};
use crate::{plan, words};
use dm_types::{MOST_SLICES, NoMemory, Slice, Slices};
use std::alloc::Global;
use std::marker::Model;

/// The longest content of one item, in bytes.
pub const MOST_BYTES: u64 = 1_099_511_627_776;

/// Which bytes of a content are there. The slices rise from the place 0 on and don't overlap; there is
/// at least one and there are at most 64.
#[derive(Debug, Drop)]
pub struct Cover {
    slices: Vec<Slice>,
    alloc: Global,
}

impl Model for Cover {
    ghost use Rattle.std.specs.Prelude.{List, length, ◌≤◌, vec_capacity};
    ghost use Rattle.dm_types.specs.declared.slices.Slice.{Slice};
    ghost use Rattle.dm_slice.specs.Cover.{IsCover};

    ghost Value = { List Slice };

    ghost view = { λ c. c.slices.items };

    ghost invariant = { λ c. record {
      cover : IsCover c.slices.items;
      most : length c.slices.items ≤ 64;
    } };
}

impl Cover {
    ghost use Rattle.dm_slice.specs.Words.{covered, end_of, HasByte, IsFirstMissing, IsFull, IsNormal};
    ghost use Rattle.dm_slice.specs.Cover.{IsAdded, IsNormalOf, grown, limit_at, next_of};

    /// A cover without a byte.
    pub fn empty(alloc: Global) -> Result<Cover, NoMemory>
        ensures { IfOk result (λ cover. cover ≡ record { first = 0; got = 0; finished = false } ∷ []) }
    {
        let mut slices = Vec::with_capacity(alloc, MOST_SLICES)?;
        slices.push(Slice {
            first: 0,
            got: 0,
            finished: false,
        })?;
        Ok(Cover { slices, alloc })
    }

    /// The cover that these slices are; none where they aren't a normal cover within the total, where
    /// one is known, and within 2^40.
    pub fn from_slices(
        alloc: Global,
        slices: &Slices,
        total: Option<u64>,
    ) -> Result<Option<Cover>, NoMemory>
        ensures some { IfOk result (λ found. IfSome found (λ cover. cover ≡ slices.now)) }
        ensures within { IfOk result (λ found. IfSome found (IsCoverWithin total)) }
        ensures none { IfOk result
            (λ found. (found ≡ None) ↔ ¬ IsCoverWithin total slices.now) }
    {
        let kept = slices.items();
        if !is_cover_within(kept, total) {
            return Ok(None);
        }
        let mut slices = Vec::with_capacity(alloc, MOST_SLICES)?;
        slices.extend_from_slice(kept)?;
        Ok(Some(Cover { slices, alloc }))
    }

    /// Another cover with the same slices.
    pub fn copy(&self) -> Result<Cover, NoMemory>
        ensures { IfOk result (λ cover. cover ≡ self.now) }
    {
        let mut slices = Vec::with_capacity(self.alloc, MOST_SLICES)?;
        slices.extend_from_slice(&self.slices)?;
        Ok(Cover {
            slices,
            alloc: self.alloc,
        })
    }

    /// How many bytes are there.
    pub fn covered(&self) -> u64
        ensures value { result ≡ covered self.now }
        ensures bound { result ≤ 2 ^ 40 }
    {
        words::covered(&self.slices) as u64
    }

    /// The place behind the slice at place `k` of the list, where there is one.
    pub fn next_place(&self, k: u32) -> Option<u64>
        ensures { result ≡ next_of self.now k }
    {
        let k = k as usize;
        if k >= self.slices.len() {
            return None;
        }
        let slice = self.slices[k];
        Some(slice.first + slice.got)
    }

    /// The slice at place `k` of the list has `n` bytes more.
    pub fn grow(&mut self, k: u32, n: u64)
        requires there { k < length self.old }
        requires room { unwrap_or (next_of self.old k) 0 + n ≤ limit_at self.old k }
        ensures value { self.new ≡ grown self.old k n }
        ensures places { (place : ℕ) → HasByte self.new place
            ↔ (HasByte self.old place ⊎ IsAdded self.old k n place) }
    {
        self.slices[k as usize].got += n;
    }

    /// The normal list with the same bytes, marked for the total.
    pub fn normal(&self, total: Option<u64>) -> Result<Slices, NoMemory>
        ensures value { IfOk result (λ slices. slices ≡ normal_of total self.now) }
        ensures meaning { IfOk result (IsNormalOf total self.now) }
    {
        normal_slices(self.alloc, &self.slices, total)
    }

    /// Makes the cover normal, and gives at most `n` parts that fill its first holes below the total,
    /// none below `min` bytes where a hole is cut. A part that begins where a slice ends continues
    /// it, and each other part is added as a slice without a byte.
    pub fn plan(&mut self, total: u64, n: u32, min: u64) -> Result<Plan, NoMemory>
        requires some { 1 ≤ n }
        requires few { n ≤ 16 }
        requires min { 1 ≤ min }
        requires total { total ≤ 2 ^ 40 }
        requires within { IsWithin total self.old }
        ensures plan { IfOk result (IsPlanned total n min self.old self.new) }
        ensures fills { IfOk result (FillsHoles total self.old) }
        ensures grows { IfOk result (AreAtSlices self.new) }
        ensures places { SamePlaces self.new self.old }
        ensures err { OnErr result (self.new ≡ self.old) }
    {
        let (slices, parts) = planned(self.alloc, &self.slices, Rule { total, least: min }, n)?;
        self.slices = slices;
        Ok(Plan::from_vec(parts))
    }

    /// Makes the cover normal where no total is known, and gives the one part from its end up to 2^40,
    /// which continues its last slice; none where that is its end.
    pub fn plan_open(&mut self) -> Result<Plan, NoMemory>
        ensures plan { IfOk result (IsPlannedOpen self.old self.new) }
        ensures fills { IfOk result (FillsHoles (2 ^ 40) self.old) }
        ensures grows { IfOk result (AreAtSlices self.new) }
        ensures places { SamePlaces self.new self.old }
        ensures err { OnErr result (self.new ≡ self.old) }
    {
        let (slices, parts) = planned_open(self.alloc, &self.slices)?;
        self.slices = slices;
        Ok(Plan::from_vec(parts))
    }

    /// The first place below the total that isn't there; none where every one is.
    pub fn first_missing(&self, total: u64) -> Option<u64>
        ensures { MatchOption result (IsFull total self.now) (IsFirstMissing total self.now) }
    {
        words::first_missing(&self.slices, total)
    }

    /// Whether every byte below the total is there.
    pub fn is_full(&self, total: u64) -> bool
        ensures { IsTrue result ↔ IsFull total self.now }
    {
        words::is_full(&self.slices, total)
    }
}

/// Whether the slices are a normal cover within the total, or within 2^40.
pub fn is_cover_within(slices: &[Slice], total: Option<u64>) -> bool
    ensures { IsTrue result ↔ IsCoverWithin total slices.now }
{
    words::is_normal(slices, total)
        && words::is_within(slices, MOST_BYTES)
        && match total {
            Some(total) => words::is_within(slices, total),
            None => true,
        }
}

/// The normal list with the bytes of a cover.
fn normal_slices(alloc: Global, slices: &[Slice], total: Option<u64>) -> Result<Slices, NoMemory>
    requires cover { IsCover slices.now }
    requires most { length slices.now ≤ 64 }
    ensures { IfOk result (λ normal. normal ≡ normal_of total slices.now) }
{
    let mut done = Slices::new(alloc);
    if let [first, rest @ ..] = slices {
        join(&mut done, *first, rest, total)?;
    }
    Ok(done)
}

/// Adds `now` and the slices behind it, where those that touch are one.
fn join(done: &mut Slices, now: Slice, rest: &[Slice], total: Option<u64>) -> Result<(), NoMemory>
    requires room { length done.old + length rest.now < 64 }
    requires rising { IsRising now.first (now ∷ rest.now) }
    ensures { OnOk result (done.new ≡ done.old ++ map (marked total) (joined now rest.now)) }
{
    match rest {
        [] => done.push(mark(now, total)),
        [slice, rest @ ..] => {
            if slice.got == 0 {
                join(done, now, rest, total)
            } else if slice.first == now.first + now.got {
                let more = Slice {
                    got: now.got + slice.got,
                    ..now
                };
                join(done, more, rest, total)
            } else {
                done.push(mark(now, total))?;
                join(done, *slice, rest, total)
            }
        }
    }
}

/// The slice with the right mark.
fn mark(slice: Slice, total: Option<u64>) -> Slice
    ensures { result ≡ marked total slice }
{
    Slice {
        finished: words::ends_content(&slice, total),
        ..slice
    }
}

/// The normal list with the empty slices of a plan, and the plan's parts.
fn planned(
    alloc: Global,
    slices: &[Slice],
    rule: Rule,
    n: u32,
) -> Result<(Vec<Slice>, Vec<Part>), NoMemory>
    requires cover { IsCover slices.now }
    requires most { length slices.now ≤ 64 }
    requires few { n ≤ 16 }
    requires least { 1 ≤ rule.least }
    requires total { rule.total ≤ 2 ^ 40 }
    requires within { IsWithin rule.total slices.now }
    ensures plan { IfOk result (λ both.
        IsPlanned rule.total n rule.least slices.now both.0.items both.1.items) }
    ensures fills { IfOk result (λ both. FillsHoles rule.total slices.now both.1.items) }
    ensures grows { IfOk result (λ both. AreAtSlices both.0.items both.1.items) }
    ensures places { IfOk result (λ both. SamePlaces both.0.items slices.now) }
    ensures cover { IfOk result (λ both. IsCover both.0.items) }
    ensures most { IfOk result (λ both. length both.0.items ≤ 64) }
{
    let normal = normal_slices(alloc, slices, Some(rule.total))?;
    let mut opened = Vec::with_capacity(alloc, MOST_SLICES)?;
    let mut parts = Vec::new(alloc);
    let room = MOST_SLICES as u64 - normal.count();
    plan::walk(
        rule,
        normal.items(),
        u64::from(n),
        room,
        &mut opened,
        &mut parts,
    )?;
    Ok((opened, parts))
}

/// The normal list, and the part from its end.
fn planned_open(alloc: Global, slices: &[Slice]) -> Result<(Vec<Slice>, Vec<Part>), NoMemory>
    requires cover { IsCover slices.now }
    requires most { length slices.now ≤ 64 }
    ensures plan { IfOk result (λ both. IsPlannedOpen slices.now both.0.items both.1.items) }
    ensures fills { IfOk result (λ both. FillsHoles (2 ^ 40) slices.now both.1.items) }
    ensures grows { IfOk result (λ both. AreAtSlices both.0.items both.1.items) }
    ensures places { IfOk result (λ both. SamePlaces both.0.items slices.now) }
    ensures cover { IfOk result (λ both. IsCover both.0.items) }
    ensures most { IfOk result (λ both. length both.0.items ≤ 64) }
{
    let normal = normal_slices(alloc, slices, None)?;
    let mut kept = Vec::with_capacity(alloc, MOST_SLICES)?;
    kept.extend_from_slice(normal.items())?;
    let parts = plan::open_parts(alloc, normal.items())?;
    Ok((kept, parts))
}
