// The words that public functions answer with: document 01, "Refusal numbers" and "Order".
// What each case is in the paper's numbers is stated once, in specs/Answer.antt.
#![tactic(auto)]

pub mod brackets;
pub mod forms;
pub mod kinds;

ghost use Rattle.std.specs.Prelude.{◌≡◌};
ghost use Rattle.paper.specs.Answer.{number_of, refused_at, told};

// Why something is refused: a name for each number of "Refusal numbers", in its order.
#[derive(Clone, Copy)]
pub enum Refusal {
    Table,
    SheetTooLong,
    Bytes,
    Name,
    Unlisted,
    Value,
    Due,
    ClosingName,
    Cut,
    TooDeep,
    NoEntryLeft,
    NoRoom,
    RollTooLong,
    BeforeBoundary,
    TooManySheets,
    RootAnnotated,
    View,
    TraitTwice,
}

impl Refusal {
    // Something is refused so at a place.
    pub fn at(self, place: usize) -> Refused
        ensures { result ≡ refused_at self place }
    {
        Refused {
            refusal: self,
            place,
        }
    }
}

// The paper's number of a refusal.
impl From<Refusal> for u32 {
    ghost from_gives = { λ refusal number. number ≡ number_of refusal };

    fn from(refusal: Refusal) -> u32 {
        match refusal {
            Refusal::Table => 1,
            Refusal::SheetTooLong => 2,
            Refusal::Bytes => 3,
            Refusal::Name => 4,
            Refusal::Unlisted => 5,
            Refusal::Value => 6,
            Refusal::Due => 7,
            Refusal::ClosingName => 8,
            Refusal::Cut => 9,
            Refusal::TooDeep => 10,
            Refusal::NoEntryLeft => 11,
            Refusal::NoRoom => 12,
            Refusal::RollTooLong => 13,
            Refusal::BeforeBoundary => 14,
            Refusal::TooManySheets => 15,
            Refusal::RootAnnotated => 16,
            Refusal::View => 17,
            Refusal::TraitTwice => 18,
        }
    }
}

// What a public function accepts, with a place and a count.
#[derive(Clone, Copy)]
pub struct Accepted {
    pub place: usize,
    pub count: usize,
}

// Why something is refused, and its place. Whatever reads or writes a part answers so too.
#[derive(Clone, Copy)]
pub struct Refused {
    pub refusal: Refusal,
    pub place: usize,
}

// What a public function answers.
pub type Answer = Result<Accepted, Refused>;

// An answer in the paper's three numbers: 0 of an acceptance, else the refusal's; its place; its count, 0 of a refusal.
#[derive(Clone, Copy)]
pub struct Told {
    pub number: u32,
    pub place: usize,
    pub count: usize,
}

impl From<Answer> for Told {
    ghost from_gives = { λ answer numbers. numbers ≡ told answer };

    fn from(answer: Answer) -> Told {
        match answer {
            Ok(Accepted { place, count }) => Told {
                number: 0,
                place,
                count,
            },
            Err(Refused { refusal, place }) => Told {
                number: refusal.into(),
                place,
                count: 0,
            },
        }
    }
}

// What the mode table says of a Concept's name.
#[derive(Clone, Copy)]
pub enum Mode {
    Children,
    Content,
    Absent,
}
