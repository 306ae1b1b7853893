// Lines of a text, and its version.

ghost use Rattle.std.specs.Prelude.{◌≡◌, ◌≤◌, ◌+◌, MatchOption, IfSome, length, ◌∷◌, [], ◌++◌};
ghost use Rattle.std.specs.Prelude.{List, ℕ};
ghost use Rattle.tpal_asm.specs.Lines.{pieces, lines_before};
ghost use Rattle.tpal_syntax.specs.Readers.{parted};

use crate::parts::behind;
use tpal_syntax::Version;

/// The first line of a text, with the byte that ends it, and what stands behind; None where no line
/// ends.
pub fn next_line(text: &[u8]) -> Option<(&[u8], &[u8])>
    ensures cases { MatchOption result (pieces text.now ≡ text.now ∷ []) (λ r. (first : List ℕ)
        × (r.0.now ≡ first ++ 10 ∷ []) × (pieces text.now ≡ first ∷ pieces r.1.now)) }
    ensures shorter { IfSome result (λ r. length r.1.now + 1 ≤ length text.now) }
{
    for (at, b) in text.iter().enumerate() {
        if *b == 10 {
            return Some(text.split_at(at + 1));
        }
    }
    None
}

/// The version of a text.
pub fn version_of(text: &[u8]) -> Version
    ensures { result ≡ (parted text.now).0 }
{
    match behind(text, b"tpal 2\n") {
        None => Version::One,
        Some(_) => Version::Two,
    }
}

/// What stands behind the first line of version 2; the whole text in version 1.
pub fn lines_of(text: &[u8]) -> &[u8]
    ensures lines { result.now ≡ (parted text.now).1 }
    ensures shorter { length result.now ≤ length text.now }
{
    match behind(text, b"tpal 2\n") {
        None => text,
        Some(rest) => rest,
    }
}

/// The number of the first of these lines.
pub fn first_number(version: Version) -> u32
    ensures { result ≡ lines_before version + 1 }
{
    match version {
        Version::One => 1,
        Version::Two => 2,
    }
}
