// Which bodies of requests are kept.
ghost use Rattle.std.specs.Prelude.{◌≡◌, Bool, List, ℕ, true};
ghost use Rattle.http_wire.specs.Fields.{pairs};

use crate::request::HttpField;

/// Tells by the fields of a request whether its body is kept. One that is not is read as well, so
/// that the next request begins after it, and its bytes are dropped as they come.
pub trait KeepsBody {
    /// With these names and values of its fields the body of a request is kept.
    ghost is_kept: { Self → List (List ℕ × List ℕ) → Bool };

    /// Returns whether the body of a request with these fields is kept.
    fn keeps_body(&self, fields: &[HttpField]) -> bool
        ensures { result ≡ is_kept self.now (pairs fields.now) };
}

/// Keeps each body.
#[derive(Clone, Copy, Debug, PartialEq, Eq)]
pub struct KeepAll;

impl KeepsBody for KeepAll {
    ghost is_kept = { λ _ _. true };

    fn keeps_body(&self, _fields: &[HttpField]) -> bool {
        true
    }
}
