// A page: bytes are put on it one behind the other. What has no room is left out, and the place is then behind the page's end for good.
// Document 01, "Canonical form" and refusal 12.
ghost use Rattle.std.specs.Prelude.{◌≡◌, true, false, List, ℕ, ◌∷◌, ◌++◌, ◌+◌, ◌≤◌, length, map};
ghost use Rattle.std.proofs.lemmas.List.Edits.{sets};
ghost use Rattle.paper.specs.Grammar.{tabs_onto};
ghost use Rattle.quoting.specs.Page.{Puts, TurnsByte};

// The bytes of a page, and the place where it goes on.
#[derive(Drop)]
pub struct Page<'a> {
    pub out: &'a mut [u8],
    pub at: usize,
}

impl<'a> Page<'a> {
    // A page that is still empty.
    pub fn new(out: &'a mut [u8]) -> Page<'a>
        ensures lies { result.out.ghost_name ≡ out.entry.ghost_name }
        ensures bytes { result.out.now ≡ out.old }
        ensures place { result.at ≡ 0 }
    {
        Page { out, at: 0 }
    }

    // Whether there is room for so many bytes more. Where there is none, the place is behind the page's end from now on.
    fn has_room(&mut self, more: usize) -> bool
        ensures room { result ≡ true → (self.new ≡ self.old) × (self.new.at + more ≤ length self.new.out.now) }
        ensures full { result ≡ false → (w : List ℕ) → length w ≡ more → Puts self.old (λ next. w ++ next) self.new }
    {
        if self.at <= self.out.len() && more <= self.out.len() - self.at {
            return true;
        }
        self.at = self.out.len() + 1;
        false
    }

    // Puts a byte.
    pub fn put_byte(&mut self, b: u8)
        ensures { Puts self.old (λ next. b ∷ next) self.new }
    {
        if self.has_room(1) {
            let at = self.at;
            self.at += 1;
            self.out[at] = b;
        }
    }

    // Puts these bytes.
    pub fn put(&mut self, part: &[u8])
        ensures { Puts self.old (λ next. part.now ++ next) self.new }
    {
        self.put_each(part, |b| b);
    }

    // Puts what `of` makes of each of these bytes.
    pub(crate) fn put_each<F: Fn(u8) -> u8>(&mut self, part: &[u8], of: F)
        requires { F.IsAlwaysCallable of }
        ensures { (f : ℕ → ℕ) → TurnsByte F.Fn of f → Puts self.old (λ next. map f part.now ++ next) self.new }
    {
        if self.has_room(part.len()) {
            let end = self.at + part.len();
            lay(self.out, self.at, part, of);
            self.at = end;
        }
    }

    // Puts so many tabs.
    pub fn put_tabs(&mut self, tabs: usize)
        ensures { Puts self.old (tabs_onto tabs) self.new }
    {
        if self.has_room(tabs) {
            let end = self.at + tabs;
            self.out[self.at..end].fill(b'\t');
            self.at = end;
        }
    }
}

// Writes what `of` makes of each byte of a part, from `at` on. It is written byte by byte: `copy_from_slice` would be a call of `memmove`, which
// takes more for short parts, as most are, and which the archive for C needs for nothing else.
fn lay<F: Fn(u8) -> u8>(out: &mut [u8], at: usize, part: &[u8], of: F)
    requires room { at + length part.now ≤ length out.old }
    requires answers { F.IsAlwaysCallable of }
    ensures { (f : ℕ → ℕ) → TurnsByte F.Fn of f → out.new ≡ sets out.old at (map f part.now) }
{
    for i in 0..part.len() {
        out[at + i] = of(part[i]);
    }
}
