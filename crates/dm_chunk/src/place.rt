ghost use Rattle.std.specs.Prelude.{◌≡◌, ◌<◌, ◌==◌, if◌then◌else◌};
ghost use Rattle.std.specs.Char.{digit_value};
ghost use Rattle.dm_chunk.specs.Machine.{after, behind_size, digit_taken, no_digit, opened, is_stop, spend};

/// The most bytes of a chunk line before its CR LF, and of a trailer section before its last CR LF.
const MOST: u64 = 16_382;

/// Where a decoder stands between two bytes. What is to spare are the bytes that may still stand before the
/// shortest end of the line or the section.
#[derive(Clone, Copy, Debug, PartialEq, Eq)]
pub enum Place {
    /// In a chunk's size, behind so many of its digits.
    Digits { count: u8, size: u64 },
    /// Behind a size and blanks.
    Blanks { size: u64, spare: u64 },
    /// In an extension.
    Extension { size: u64, spare: u64 },
    /// Behind the CR of a chunk line.
    LineEnd(u64),
    /// In a chunk's data, of which so much is left. Where none is, its CR comes.
    Data(u64),
    /// Behind the CR that follows the data.
    DataEnd,
    /// Where a trailer line or the empty line begins.
    TrailerStart(u64),
    /// In a trailer line.
    Trailer(u64),
    /// Behind a CR in a trailer line.
    TrailerEnd(u64),
    /// Behind a CR that begins a line.
    LastEnd(u64),
    /// Behind the whole body.
    Done,
    /// Behind a byte with which none goes on.
    Broken,
}

/// In a size, behind one digit more.
fn digit_taken(count: u8, size: u64, digit: u32) -> Place
    requires { digit < 16 }
    ensures { result ≡ digit_taken count size digit }
{
    if count < 15 && size < 1 << 60 {
        Place::Digits {
            count: count + 1,
            size: 16 * size + u64::from(digit),
        }
    } else {
        Place::Broken
    }
}

/// In the blanks of a line.
fn blank_taken(size: u64, spare: u64) -> Place
    ensures { result ≡ spend spare 1 (Place.Blanks size) }
{
    match spare.checked_sub(1) {
        Some(spare) => Place::Blanks { size, spare },
        None => Place::Broken,
    }
}

/// In an extension.
fn extension_taken(size: u64, spare: u64) -> Place
    ensures { result ≡ spend spare 1 (Place.Extension size) }
{
    match spare.checked_sub(1) {
        Some(spare) => Place::Extension { size, spare },
        None => Place::Broken,
    }
}

/// In a trailer line, with so many bytes less to spare.
fn trailer_taken(spare: u64, count: u64) -> Place
    ensures { result ≡ spend spare count Place.Trailer }
{
    match spare.checked_sub(count) {
        Some(spare) => Place::Trailer(spare),
        None => Place::Broken,
    }
}

/// Behind a CR in a trailer line, with so many bytes less to spare.
fn trailer_end_taken(spare: u64, count: u64) -> Place
    ensures { result ≡ spend spare count Place.TrailerEnd }
{
    match spare.checked_sub(count) {
        Some(spare) => Place::TrailerEnd(spare),
        None => Place::Broken,
    }
}

/// Behind a size or blanks.
fn behind_size(size: u64, spare: u64, byte: u8) -> Place
    ensures { result ≡ behind_size size spare byte }
{
    if byte == b'\r' {
        Place::LineEnd(size)
    } else if byte == b' ' || byte == b'\t' {
        blank_taken(size, spare)
    } else if byte == b';' {
        extension_taken(size, spare)
    } else {
        Place::Broken
    }
}

/// Behind the digits of a size.
fn no_digit(count: u8, size: u64, byte: u8) -> Place
    ensures { result ≡ no_digit count size byte }
{
    if count == 0 {
        Place::Broken
    } else {
        behind_size(size, MOST - u64::from(count), byte)
    }
}

/// In a size.
fn after_digits(count: u8, size: u64, byte: u8) -> Place
    ensures { result ≡ after (Place.Digits count size) byte }
{
    match char::from(byte).to_digit(16) {
        Some(digit) => digit_taken(count, size, digit),
        None => no_digit(count, size, byte),
    }
}

fn after_extension(size: u64, spare: u64, byte: u8) -> Place
    ensures { result ≡ after (Place.Extension size spare) byte }
{
    match byte {
        b'\r' => Place::LineEnd(size),
        b'\n' => Place::Broken,
        _ => extension_taken(size, spare),
    }
}

/// Behind a chunk line.
fn opened(size: u64) -> Place
    ensures { result ≡ opened size }
{
    if size == 0 {
        Place::TrailerStart(MOST)
    } else {
        Place::Data(size)
    }
}

fn after_data(left: u64, byte: u8) -> Place
    ensures { result ≡ after (Place.Data left) byte }
{
    match left.checked_sub(1) {
        Some(left) => Place::Data(left),
        None => only(byte, b'\r', Place::DataEnd),
    }
}

/// The place behind this one byte that may stand here.
fn only(byte: u8, expected: u8, place: Place) -> Place
    ensures { result ≡ (if byte == expected then place else Place.Broken) }
{
    if byte == expected {
        place
    } else {
        Place::Broken
    }
}

fn after_trailer_start(spare: u64, byte: u8) -> Place
    ensures { result ≡ after (Place.TrailerStart spare) byte }
{
    if byte == b'\r' {
        Place::LastEnd(spare)
    } else {
        trailer_taken(spare, 3)
    }
}

fn after_trailer(spare: u64, byte: u8) -> Place
    ensures { result ≡ after (Place.Trailer spare) byte }
{
    if byte == b'\r' {
        Place::TrailerEnd(spare)
    } else {
        trailer_taken(spare, 1)
    }
}

fn after_trailer_end(spare: u64, byte: u8) -> Place
    ensures { result ≡ after (Place.TrailerEnd spare) byte }
{
    match byte {
        b'\n' => Place::TrailerStart(spare),
        b'\r' => trailer_end_taken(spare, 1),
        _ => trailer_taken(spare, 2),
    }
}

fn after_last_end(spare: u64, byte: u8) -> Place
    ensures { result ≡ after (Place.LastEnd spare) byte }
{
    match byte {
        b'\n' => Place::Done,
        b'\r' => trailer_end_taken(spare, 3),
        _ => trailer_taken(spare, 4),
    }
}

impl Place {
    /// Where the decoder stands after one byte more.
    pub fn after(self, byte: u8) -> Place
        ensures { result ≡ after self byte }
    {
        match self {
            Place::Digits { count, size } => after_digits(count, size, byte),
            Place::Blanks { size, spare } => behind_size(size, spare, byte),
            Place::Extension { size, spare } => after_extension(size, spare, byte),
            Place::LineEnd(size) => only(byte, b'\n', opened(size)),
            Place::Data(left) => after_data(left, byte),
            Place::DataEnd => only(byte, b'\n', Place::Digits { count: 0, size: 0 }),
            Place::TrailerStart(spare) => after_trailer_start(spare, byte),
            Place::Trailer(spare) => after_trailer(spare, byte),
            Place::TrailerEnd(spare) => after_trailer_end(spare, byte),
            Place::LastEnd(spare) => after_last_end(spare, byte),
            Place::Done | Place::Broken => Place::Broken,
        }
    }

    /// Whether data stands here, or nothing more is read.
    pub fn is_stop(self) -> bool
        ensures { result ≡ is_stop self }
    {
        match self {
            Place::Data(left) => left > 0,
            Place::Done | Place::Broken => true,
            Place::Digits { .. }
            | Place::Blanks { .. }
            | Place::Extension { .. }
            | Place::LineEnd(_)
            | Place::DataEnd
            | Place::TrailerStart(_)
            | Place::Trailer(_)
            | Place::TrailerEnd(_)
            | Place::LastEnd(_) => false,
        }
    }
}
