//! Numbers in a path and in a query.
ghost use Rattle.std.specs.Prelude.{◌≡◌};
ghost use Rattle.std.specs.List.{list_all};
ghost use Rattle.std.specs.Char.{is_ascii, is_ascii_digit};
ghost use Rattle.dm_call.specs.Numbers.{number_of};
ghost use Rattle.dm_call.specs.Query.{limit_of};

/// The most digits of a number.
const MOST_DIGITS: usize = 10;

/// The most entries that one reply shows.
const MOST_SHOWN: u32 = 100;

/// The number that the digits are.
pub fn read_number(digits: &str) -> Option<u32>
    ensures { result ≡ number_of digits.now }
{
    if digits.len() > MOST_DIGITS || !are_digits(digits.as_bytes()) {
        return None;
    }
    digits.parse::<u32>().ok()
}

fn are_digits(text: &[u8]) -> bool
    ensures { result ≡ list_all is_ascii_digit text.now }
{
    text.iter().all(|byte| byte.is_ascii_digit())
}

/// Whether each byte is one of ASCII.
pub fn is_plain(text: &[u8]) -> bool
    ensures { result ≡ list_all is_ascii text.now }
{
    text.iter().all(|byte| byte.is_ascii())
}

/// How many entries are to be shown, where the digits are such a number.
pub fn read_limit(digits: &str) -> Option<u32>
    ensures { result ≡ limit_of digits.now }
{
    match read_number(digits) {
        Some(limit) if 1 <= limit && limit <= MOST_SHOWN => Some(limit),
        _ => None,
    }
}
