// The forms of entries: those of Concepts, and those of the values of traits and items.
// Document 01, "Entries"; document 02, Two and Five. What number each has is stated once, in specs/Forms.antt.
ghost use Rattle.std.specs.Prelude.{◌≡◌};
ghost use Rattle.paper.specs.Forms.{number_of_body, number_of_form};

// Annotations and Content have no form.
pub const NONE: u32 = 0;

// What follows the opening marker of a Concept, which is its form.
#[derive(Clone, Copy)]
pub enum Body {
    SelfClosed = 1,
    Children = 2,
    Content = 3,
}

impl Body {
    pub fn number(self) -> u32
        ensures { result ≡ number_of_body self }
    {
        self as u32
    }
}

// The form of a value.
#[derive(Clone, Copy)]
pub enum Form {
    String = 1,
    Character = 2,
    Boolean = 3,
    Integer = 4,
    Decimal = 5,
    Scientific = 6,
    Fraction = 7,
    Pascal = 8,
    Camel = 9,
    Uuid = 10,
    Iri = 11,
    List = 12,
    Time = 13,
    Set = 14,
    Map = 15,
    Tuple = 16,
}

impl Form {
    pub fn number(self) -> u32
        ensures { result ≡ number_of_form self }
    {
        self as u32
    }
}
