// How many Concepts or brackets may still be opened in one another.
// Document 01, "Sizes": thirty-two Concepts and eight lists deep, the outermost counting as one; document 02, Five: brackets of every kind count as lists do.
ghost use Rattle.std.specs.Prelude.{◌≡◌};
ghost use Rattle.text.specs.Deeper.{one_deeper};

// So many may still be opened.
#[derive(Clone, Copy)]
pub struct Nesting {
    pub left: usize,
}

impl Nesting {
    pub const CONCEPTS: usize = 32;

    pub const BRACKETS: usize = 8;

    // So many may be opened in one another.
    pub fn new(limit: usize) -> Self
        ensures { result.left ≡ limit }
    {
        Nesting { left: limit }
    }

    // One is opened, if one may be.
    pub fn step(self) -> Option<Nesting>
        ensures { result ≡ one_deeper self.left }
    {
        let left = self.left.checked_sub(1)?;
        Some(Nesting { left })
    }
}
