// Lists of bytes that are parted where one of some bytes first stands.
// 001 §18, how its rules are joined; document 02, Two.
ghost use Rattle.std.specs.Prelude.{◌≡◌, Bool, List, ℕ, MatchOption};
ghost use Rattle.paper.specs.Bytes.{up_to, onward};
ghost use Rattle.paper.specs.Times.{among, parted, perhaps};
ghost use Rattle.times.specs.Parts.{HasNone, IsParted, Judges};

use text::parts::find;

// What stands in front of the first of these bytes, and from it on.
pub fn split_before<'a>(w: &'a [u8], these: &[u8]) -> (&'a [u8], &'a [u8])
    ensures front { result.0.now ≡ up_to (among these.now) w.now }
    ensures back { result.1.now ≡ onward (among these.now) w.now }
{
    w.split_at(find(w, 0, these))
}

// What stands in front of the first of these bytes, and behind it; none where none of them stands.
pub fn split_once<'a>(w: &'a [u8], these: &[u8]) -> Option<(&'a [u8], &'a [u8])>
    ensures { MatchOption result (HasNone these.now w.now) (λ p. IsParted these.now w.now p.0.now p.1.now) }
{
    let (front, onward) = split_before(w, these);
    let (_, rest) = onward.split_first()?;
    Some((front, rest))
}

// First, one of these bytes, Second.
pub fn parted<F: Fn(&[u8]) -> bool, S: Fn(&[u8]) -> bool>(
    w: &[u8],
    these: &[u8],
    first: F,
    second: S,
) -> bool
    requires first_answers { F.IsAlwaysCallable first }
    requires second_answers { S.IsAlwaysCallable second }
    ensures { (p q : List ℕ → Bool) → Judges F.Fn first p → Judges S.Fn second q → result ≡ parted these.now p q w.now }
{
    match split_once(w, these) {
        Some((front, rest)) => first(front) && second(rest),
        None => false,
    }
}

// First, [ one of these bytes, Second ].
pub fn perhaps<F: Fn(&[u8]) -> bool, S: Fn(&[u8]) -> bool>(
    w: &[u8],
    these: &[u8],
    first: F,
    second: S,
) -> bool
    requires first_answers { F.IsAlwaysCallable first }
    requires second_answers { S.IsAlwaysCallable second }
    ensures { (p q : List ℕ → Bool) → Judges F.Fn first p → Judges S.Fn second q → result ≡ perhaps these.now p q w.now }
{
    match split_once(w, these) {
        Some((front, rest)) => first(front) && second(rest),
        None => first(w),
    }
}
