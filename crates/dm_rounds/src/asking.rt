ghost use Rattle.std.specs.Prelude.{◌≡◌, ◌<◌, List, Some, slice_get, IfOk, IfErr, OnOk};
ghost use Rattle.dm_types.specs.Faults.{NoneFell};
ghost use Rattle.dm_answers.specs.Broke.{IsMet};
ghost use Rattle.dm_attempt.specs.Asking.{Asking};
ghost use Rattle.dm_attempt.specs.Ending.{IfBroke};
ghost use Rattle.dm_attempt.specs.Ends.{empty_share};
ghost use Rattle.dm_attempt.specs.Shares.{Share};
ghost use Rattle.dm_rounds.specs.Lanes.{NetCounts};
ghost use Rattle.dm_rounds.specs.Parts.{AsksOf, IsHeardLane, IsNewLane, IsOfNet, StopsAsking};
ghost use Rattle.dm_rounds.specs.Reading.{IsTurn};

use crate::Lane;
use dm_ask::{Asked, ask};
use dm_attempt::{Source, Stop};
use dm_edge::{Net, Wire};
use dm_slice::Part;
use dm_store::Pass;
use dm_types::NoMemory;
use std::alloc::Global;

/// Asks for a part of a content by its range. The lane has brought nothing yet.
pub fn ask_part<N: Net>(
    alloc: Global,
    net: &mut N,
    source: &Source,
    pass: &Pass,
    part: &Part,
) -> Result<Lane<N::W>, Stop>
    requires some { part.now.first < part.now.end }
    ensures turn { IfOk result (λ lane. (asking : Asking) (shares : List Share) → AsksOf asking source.now pass.now part.now → slice_get shares part.now.index ≡ Some (empty_share part.now)
        → IsTurn N.W.tells N.W.purpose N.W.told N.W.origin (N.origin_of net.old) asking shares lane) }
    ensures fresh { IfOk result (IsNewLane source.now part.now) }
    ensures heard { N.W.tells → IfOk result (IsHeardLane N.W.purpose N.W.told source.now pass.now part.now) }
    ensures closed { N.tells → OnOk result (N.closed net.new ≡ N.closed net.old) }
    ensures stopped { N.tells → IfErr result (StopsAsking source.now pass.now part.now (N.faults net.old) (N.faults net.new) (N.closed net.old) (N.closed net.new)) }
    ensures counted { IfErr result (NetCounts (N.faults net.old) (N.faults net.new)) }
    ensures met { IfErr result (λ stop. IfBroke stop IsMet) }
    ensures own { IfErr result IsOfNet }
    ensures origin { IfOk result (λ lane. N.W.origin lane.wire ≡ N.origin_of net.old) }
    ensures stays { N.origin_of net.new ≡ N.origin_of net.old }
    ensures later { NoneFell (N.faults net.old) (N.faults net.new) }
{
    let wanted = match source.wanted(alloc, part) {
        Ok(wanted) => wanted,
        Err(NoMemory) => return Err(Stop::NoMemory),
    };
    match ask(alloc, net, &source.address, pass.id, pass.attempt, wanted) {
        Asked::Content {
            wire,
            reader,
            head: _head,
            address: _at,
            key: _key,
        } => Ok(Lane {
            wire,
            reader,
            part: *part,
            at: part.first,
            bounded: true,
        }),
        Asked::Broke(cause) => Err(Stop::Broke(cause)),
        Asked::NoMemory => Err(Stop::NoMemory),
    }
}
