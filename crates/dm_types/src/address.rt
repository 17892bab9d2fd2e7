ghost use Rattle.std.specs.Prelude.{◌≡◌, IfOk};

use crate::{NoMemory, Text};
use std::alloc::Global;

/// An `http` address, read.
#[derive(Debug, Drop)]
pub struct Address {
    /// The URL without its fragment.
    pub text: Text,
    /// The host, as it stands in the URL.
    pub host: Text,
    /// The port that is connected to: 80 where the URL names none.
    pub port: u16,
    /// What the request line asks for: the path and, where there is one, `?` and the query.
    pub target: Text,
}

impl Address {
    /// Another value of the same address.
    pub fn copy(&self, alloc: Global) -> Result<Address, NoMemory>
        ensures { IfOk result (λ address. address ≡ self.now) }
    {
        let text = self.text.copy(alloc)?;
        let host = self.host.copy(alloc)?;
        let target = self.target.copy(alloc)?;
        Ok(Address {
            text,
            host,
            port: self.port,
            target,
        })
    }
}
