//! A request as it came.
ghost use Rattle.std.specs.Prelude.{◌≡◌};
ghost use Rattle.dm_call.specs.Asked.{kind_of};

use dm_types::Text;

/// The methods that a route may have (RFC 9110, section 9). They are told apart by case.
#[derive(Clone, Copy, Debug, PartialEq, Eq)]
pub enum MethodKind {
    Get,
    Post,
    Delete,
    /// Any other one.
    Other,
}

/// A whole request to the service.
#[derive(Debug, Drop)]
pub struct ApiRequest {
    pub method: MethodKind,
    /// The request target up to its first `?`.
    pub path: Text,
    /// The target behind its first `?`, or empty.
    pub query: Text,
    /// The content.
    pub body: Text,
}

/// The kind of a method, by its name.
pub fn method_kind(name: &[u8]) -> MethodKind
    ensures { result ≡ kind_of name.now }
{
    if name == b"GET".as_slice() {
        MethodKind::Get
    } else if name == b"POST".as_slice() {
        MethodKind::Post
    } else if name == b"DELETE".as_slice() {
        MethodKind::Delete
    } else {
        MethodKind::Other
    }
}
