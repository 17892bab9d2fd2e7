/// The next of the content.
#[derive(Clone, Copy, Debug, PartialEq, Eq)]
pub enum Got {
    /// This many bytes, at least one, at the front of the buffer.
    Bytes(usize),
    /// The content was given whole.
    End,
}
