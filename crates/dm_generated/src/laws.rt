ghost use Rattle.dm_generated.specs.Laws.{BringsGenerated, OneAnswer, ReadsBack};

/// Each generated reply is read as what it was printed of: the head of the whole content, or that of the part.
pub fn reads_back()
    ensures { ReadsBack }
{}

/// Whatever is wanted, each byte that a generated stream has of it is the one that the number generates for its place.
pub fn brings_generated()
    ensures { BringsGenerated }
{}

/// A text is one request at most: it gets one reply.
pub fn one_answer()
    ensures { OneAnswer }
{}
