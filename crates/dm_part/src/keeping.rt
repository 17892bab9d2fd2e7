ghost use Rattle.dm_part.specs.Rows.{RowsHold};
ghost use Rattle.dm_part.specs.Laws.{DigestTells, HeldIsSound, HeldStands, PartReads, MovingReads, PublishedReads, PutLength, FirmPublishes, ShortIsLeft, ClaimIsLeft, ShortnessIsLeft, PutKeeps, SettleKeeps, MayMove, MayLose, MayTell, SoundHolds, PublishKeeps, SyncPublishes, DiscardKeeps, SweepKeeps, MakeHolds};

/// What is kept of a file is sound in each image that a crash may leave, and says what stands and reads.
pub fn held_is_sound()
    ensures sound { HeldIsSound }
    ensures short { ShortIsLeft }
    ensures stands { HeldStands }
    ensures reads { PartReads }
    ensures moving { MovingReads }
    ensures published { PublishedReads }
{}

/// A disk that begins with what a crash left holds what is sound in it.
pub fn sound_is_held()
    ensures { SoundHolds }
{}

/// What is done at other names leaves what is kept of a file, and the shortness of a part, at each moment.
pub fn others_leave()
    ensures claim { ClaimIsLeft }
    ensures short { ShortnessIsLeft }
{}

/// What each call on an item's own part keeps of its file, at each moment, and what it makes of it.
pub fn own_calls_keep()
    ensures made { MakeHolds }
    ensures landed { PutKeeps }
    ensures lengths { PutLength }
    ensures settled { SettleKeeps }
    ensures may_move { MayMove }
    ensures digest_tells { DigestTells }
    ensures may_lose { MayLose }
    ensures may_tell { MayTell }
    ensures published { PublishKeeps }
    ensures names_publish { SyncPublishes }
    ensures firm_publishes { FirmPublishes }
    ensures discarded { DiscardKeeps }
    ensures swept { SweepKeeps }
{}

/// Worked rows of what is kept of a file.
pub fn rows_of_keeping()
    ensures { RowsHold }
{}
