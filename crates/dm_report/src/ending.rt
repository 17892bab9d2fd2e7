ghost use Rattle.std.specs.Prelude.{◌≡◌};
ghost use Rattle.dm_report.specs.Said.{EndsAs, only};
ghost use Rattle.dm_report.specs.Verdict.{IsMade, errs_of, status_of};

use crate::Verdict;
use crate::verdict::{line_of_fixed, made_line, status_of};
use dm_types::{NoMemory, Text};
use std::alloc::Global;
use std::marker::Model;

/// How a command ended, and what it says on both outputs.
#[derive(Debug, Drop)]
pub struct Ending {
    verdict: Verdict,
    out: Text,
    line: Text,
}

impl Model for Ending {
    ghost use Rattle.std.specs.Prelude.{◌≡◌};
    ghost use Rattle.dm_report.specs.Said.{Said};
    ghost use Rattle.dm_report.specs.Verdict.{IsMade, errs_of};

    ghost Value = { Said };

    ghost view = { λ e. record { verdict = e.verdict; out = e.out } };

    ghost invariant = { λ e. IsMade e.verdict → e.line ≡ errs_of e.verdict };
}

impl Ending {
    /// The ending with this text on standard output. Where memory is wanting for its line it is `NoMemory`, with no text.
    pub fn new(alloc: Global, verdict: Verdict, out: Text) -> Ending
        ensures { EndsAs (record { verdict = verdict; out = out }) result }
    {
        match made_line(alloc, verdict) {
            Ok(line) => Ending { verdict, out, line },
            Err(NoMemory) => Ending::fixed(alloc, Verdict::NoMemory),
        }
    }

    /// The ending of a verdict that has a fixed line, with nothing on standard output. It takes no memory.
    pub fn fixed(alloc: Global, verdict: Verdict) -> Ending
        requires { IsMade verdict → ⊥ }
        ensures { result ≡ only verdict }
    {
        Ending {
            verdict,
            out: Text::new(alloc),
            line: Text::new(alloc),
        }
    }

    pub fn verdict(&self) -> Verdict
        ensures { result ≡ self.now.verdict }
    {
        self.verdict
    }

    /// The status that the program ends with, unless a write fails.
    pub fn status(&self) -> u8
        ensures { result ≡ status_of self.now.verdict }
    {
        status_of(self.verdict)
    }

    /// What is printed on standard output.
    pub fn out_text(&self) -> &[u8]
        ensures { result.now ≡ self.now.out }
    {
        self.out.bytes()
    }

    /// What is printed on standard error.
    pub fn errs_text(&self) -> &[u8]
        ensures { result.now ≡ errs_of self.now.verdict }
    {
        match line_of_fixed(self.verdict) {
            Some(line) => line,
            None => self.line.bytes(),
        }
    }
}
