//! Comparing the requests of calls under one number of a session (`docs/model.md`, "The front").

ghost use Rattle.std.specs.Prelude.{◌≡◌, ◌↔◌, IsTrue};

use fe_state::Request;

/// Whether two requests ask the same, in every part. A call whose number belongs to a
/// request that is kept or waits has to make the same request; another is refused.
pub fn is_same(before: &Request, request: &Request) -> bool
    ensures { IsTrue result ↔ (before.now ≡ request.now) }
{
    *before == *request
}
