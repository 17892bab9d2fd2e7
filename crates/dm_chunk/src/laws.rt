ghost use Rattle.dm_chunk.specs.Laws.{SomeReading, OneChunked, OneFront, OneBad, ChunkedNoFront, ChunkedNotBad, FrontNotBad, ChunkedStays, BadStays, ToldIsBrought};

/// Each text is chunked, a front of a chunked one, or one with which none begins.
pub fn some_reading()
    ensures { SomeReading }
{}

/// And it is so in one way.
pub fn one_reading()
    ensures chunked { OneChunked }
    ensures front { OneFront }
    ensures bad { OneBad }
{}

/// No text is two of the three.
pub fn apart()
    ensures chunked_no_front { ChunkedNoFront }
    ensures chunked_not_bad { ChunkedNotBad }
    ensures front_not_bad { FrontNotBad }
{}

/// What is whole stays whole, and what is bad stays bad, whatever follows.
pub fn stays()
    ensures chunked { ChunkedStays }
    ensures bad { BadStays }
{}

/// What a decoder has told is a front of the content, however the text goes on.
pub fn told_is_brought()
    ensures { ToldIsBrought }
{}
