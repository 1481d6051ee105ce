// The kinds of entries.
// Document 01, "Entries". What number each has is stated once, in specs/Kinds.antt.
ghost use Rattle.std.specs.Prelude.{◌≡◌};
ghost use Rattle.paper.specs.Kinds.{number_of_kind};

#[derive(Clone, Copy)]
pub enum Kind {
    Concept = 1,
    Trait = 2,
    Item = 3,
    Annotation = 4,
    Content = 5,
}

impl Kind {
    pub fn number(self) -> u32
        ensures { result ≡ number_of_kind self }
    {
        self as u32
    }
}
