// Brackets around values: which one opens at a place, what closes it, and what stands between two items.
// Document 01, "The grammar", Values; document 02, Five.
ghost use Rattle.std.specs.Prelude.{◌≡◌, ◌&&◌, [], ◌∷◌, drop};
ghost use Rattle.paper.specs.Bytes.{bytes, starts_with};
ghost use Rattle.paper.specs.Values.{closer, may_be_empty};
ghost use Rattle.paper.specs.ReadingValues.{opens_with};
ghost use Rattle.values.specs.Brackets.{opening_of};

use paper::brackets::Bracket;
use text::parts::starts_with;

// Which bracket opens at `at`, if one does. The first byte says which one it can be.
pub fn opens(s: &[u8], at: usize) -> Option<Bracket>
    ensures { result ≡ opening_of (opens_with (drop at s.now)) }
{
    match *s.get(at)? {
        b'[' => Some(Bracket::List),
        b'(' => Some(Bracket::Tuple),
        b's' if starts_with(s, at, b"set[") => Some(Bracket::Set),
        b'm' if starts_with(s, at, b"map[") => Some(Bracket::Map),
        _ => None,
    }
}

// Whether a bracket of this kind closes at `at`.
pub fn closes(s: &[u8], at: usize, kind: Bracket) -> bool
    ensures { result ≡ starts_with (closer kind ∷ []) (drop at s.now) }
{
    starts_with(s, at, &[kind.closer()])
}

// Whether a bracket of this kind closes at `at` without an item, which a tuple may not.
pub fn is_empty(s: &[u8], at: usize, kind: Bracket) -> bool
    ensures { result ≡ (may_be_empty kind && starts_with (closer kind ∷ []) (drop at s.now)) }
{
    kind.may_be_empty() && closes(s, at, kind)
}

// Whether a bracket goes on at `at`, with another item.
pub fn goes_on(s: &[u8], at: usize) -> bool
    ensures { result ≡ starts_with (bytes ",") (drop at s.now) }
{
    starts_with(s, at, b",")
}
