// Passes and parts of items, and the calls by which a first attempt begins.
use crate::calls::Call;
use crate::said::Said;
use dm_items::{Begun, Named, Pass, SlicePass, Taken};
use dm_types::{Attempt, By, Epoch, ItemId};

/// The pass of the first attempt of item 1.
pub const FIRST: Pass = Pass {
    id: ItemId(1),
    attempt: Attempt(1),
    epoch: Epoch(1),
};

/// A second one, which goes on.
pub const ON: Pass = Pass {
    id: ItemId(1),
    attempt: Attempt(2),
    epoch: Epoch(1),
};

/// A second one, which brings all anew.
pub const ANEW: Pass = Pass {
    id: ItemId(1),
    attempt: Attempt(2),
    epoch: Epoch(2),
};

/// A third one, where the second had gone on.
pub const THIRD: Pass = Pass {
    id: ItemId(1),
    attempt: Attempt(3),
    epoch: Epoch(2),
};

/// The first one of item 2.
pub const OTHER: Pass = Pass {
    id: ItemId(2),
    attempt: Attempt(1),
    epoch: Epoch(1),
};

/// The one part of the first round of the first attempt, of 11 bytes.
pub const PART: SlicePass = SlicePass {
    id: ItemId(1),
    attempt: Attempt(1),
    round: 1,
    index: 0,
    first: 0,
    end: 11,
};

/// What is left of it behind 5 bytes, in the second attempt.
pub const REST: SlicePass = SlicePass {
    id: ItemId(1),
    attempt: Attempt(2),
    round: 1,
    index: 0,
    first: 5,
    end: 11,
};

/// The whole, in a second attempt that brings it anew.
pub const AGAIN: SlicePass = SlicePass {
    id: ItemId(1),
    attempt: Attempt(2),
    round: 1,
    index: 0,
    first: 0,
    end: 11,
};

/// The one part of item 2.
pub const OTHER_PART: SlicePass = SlicePass {
    id: ItemId(2),
    attempt: Attempt(1),
    round: 1,
    index: 0,
    first: 0,
    end: 11,
};

/// The first of two parts of 16 bytes in the first attempt.
pub const LEFT_HALF: SlicePass = SlicePass {
    id: ItemId(1),
    attempt: Attempt(1),
    round: 1,
    index: 0,
    first: 0,
    end: 8,
};

/// The second of them.
pub const RIGHT_HALF: SlicePass = SlicePass {
    id: ItemId(1),
    attempt: Attempt(1),
    round: 1,
    index: 1,
    first: 8,
    end: 16,
};

/// An item that is added and begun.
pub const ASKED: [(Call, Said); 2] = [
    (Call::Add(b"w1"), Said::Taken(Taken::New(ItemId(1)))),
    (Call::Begin(1, By::User), Said::Begun(Begun::Fresh(FIRST))),
];

/// It is described, and its one part is planned.
pub const TOLD: [(Call, Said); 2] = [
    (
        Call::Tagged(FIRST, Some(11), b"hello.txt"),
        Said::Named(Named::Named),
    ),
    (Call::Plan(FIRST, 1), Said::Parts(1, Some(PART))),
];
