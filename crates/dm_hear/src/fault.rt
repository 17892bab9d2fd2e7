use dm_types::NoMemory;

/// Which rule of HTTP the bytes break.
#[derive(Clone, Copy, Debug, PartialEq, Eq)]
pub enum Rule {
    /// They can't begin the head of a request, or begin a field that is one too many.
    Head,
    /// The length of the content can't be known: there is a transfer coding, or a Content-Length that
    /// is no number, or two that differ.
    Length,
}

/// Why no request was read.
#[derive(Clone, Copy, Debug, PartialEq, Eq)]
pub enum ApiFault {
    Rule(Rule),
    /// It has more than 16,384 bytes, its head and its content together.
    TooLarge,
    /// The source ended inside it.
    Cut,
    /// A read failed.
    Source,
    NoMemory,
}

impl From<NoMemory> for ApiFault {
    ghost use Rattle.std.specs.Prelude.{◌≡◌};
    ghost use Rattle.dm_hear.specs.declared.fault.ApiFault.TheVariants as faults;

    ghost from_gives = { λ _ fault. fault ≡ faults.NoMemory };

    fn from(_: NoMemory) -> ApiFault {
        ApiFault::NoMemory
    }
}
