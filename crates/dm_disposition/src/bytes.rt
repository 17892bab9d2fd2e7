ghost use Rattle.std.specs.Prelude.{◌≡◌};
ghost use Rattle.dm_types.specs.Bytes.{is_blank};
ghost use Rattle.dm_disposition.specs.Bytes.{is_token_byte, is_quoted_text, is_escapable};

/// A space or a tab.
pub fn is_blank(byte: u8) -> bool
    ensures { result ≡ is_blank byte }
{
    byte == b' ' || byte == b'\t'
}

/// A byte of a token (RFC 9110, section 5.6.2).
pub fn is_token_byte(byte: u8) -> bool
    ensures { result ≡ is_token_byte byte }
{
    byte.is_ascii_alphanumeric() || b"!#$%&'*+-.^_`|~".contains(&byte)
}

/// A byte that stands for itself between double quotes (RFC 9110, section 5.6.4).
pub fn is_quoted_text(byte: u8) -> bool
    ensures { result ≡ is_quoted_text byte }
{
    matches!(byte, b'\t' | b' '..=b'!' | b'#'..=b'[' | b']'..=b'~' | 0x80..=0xff)
}

/// A byte that a backslash may stand before.
pub fn is_escapable(byte: u8) -> bool
    ensures { result ≡ is_escapable byte }
{
    matches!(byte, b'\t' | b' '..=b'~' | 0x80..=0xff)
}
