//! The lines of an input, of a schedule or of `femem call` (`docs/schedules.md`, "Lines"). Each ends with a
//! line feed; the last one may end with the input.

ghost use Rattle.std.specs.Prelude.{◌≡◌, ◌<◌, ◌==◌, ◌++◌, ◌∷◌, length, position, IfNone, IfSome};
ghost use Rattle.fe_text.specs.Line.{HasNoFeed};

/// The index of the first line feed.
fn feed_in(bytes: &[u8]) -> Option<usize>
    ensures place { result ≡ position (λ byte. byte == 10) bytes.now }
    ensures within { IfSome result (λ at. at < length bytes.now) }
{
    bytes.iter().position(|byte| *byte == b'\n')
}

/// The bytes before the first line feed and those after it, or `None` if there is no line feed.
pub fn first_line(bytes: &[u8]) -> Option<(&[u8], &[u8])>
    ensures parts { IfSome result (λ p. bytes.entry.now ≡ p.0.now ++ 10 ∷ p.1.now) }
    ensures first { IfSome result (λ p. HasNoFeed p.0.now) }
    ensures none { IfNone result (HasNoFeed bytes.entry.now) }
{
    let at = feed_in(bytes)?;
    Some((&bytes[..at], &bytes[at + 1..]))
}
