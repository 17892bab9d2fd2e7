//! Where the lines of a head stand.
ghost use Rattle.std.specs.Prelude.{◌≡◌};
ghost use Rattle.dm_reply.specs.Lines.{line_step, lines_after, untold};

/// What the bytes of a head say of its lines. A line ends in LF, and a CR makes none.
#[derive(Clone, Copy)]
pub struct Lines {
    /// A line began that isn't empty.
    pub begun: bool,
    /// The next byte goes on in such a line.
    pub in_line: bool,
    /// The last bytes had an empty line behind one that isn't.
    pub ended: bool,
}

impl Lines {
    /// No bytes came.
    pub const NONE: Lines = Lines {
        begun: false,
        in_line: false,
        ended: false,
    };

    /// After these bytes more.
    pub fn after(self, bytes: &[u8]) -> Lines
        ensures { result ≡ lines_after (untold self) bytes.now }
    {
        let mut lines = Lines {
            begun: self.begun,
            in_line: self.in_line,
            ended: false,
        };
        for byte in bytes {
            lines = lines.step(*byte);
        }
        lines
    }

    fn step(self, byte: u8) -> Lines
        ensures { result ≡ line_step self byte }
    {
        match byte {
            b'\n' => Lines {
                begun: self.begun,
                in_line: false,
                ended: self.ended || self.begun && !self.in_line,
            },
            b'\r' => self,
            _ => Lines {
                begun: true,
                in_line: true,
                ended: self.ended,
            },
        }
    }
}
