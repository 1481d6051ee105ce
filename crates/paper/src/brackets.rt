// Brackets: the kinds of values that hold items, and what is known of each.
// Document 02, Five; 001 §19 to §22. What each function answers is stated once, in specs/Values.antt.
ghost use Rattle.std.specs.Prelude.{◌≡◌, length};
ghost use Rattle.paper.specs.Forms.{number_of_form};
ghost use Rattle.paper.specs.Values.{opener, closer, bracket_form, may_be_empty, keyed};

use crate::forms::Form;

// A kind of bracket.
#[derive(Clone, Copy)]
pub enum Bracket {
    List,
    Set,
    Map,
    Tuple,
}

impl Bracket {
    // How many bytes open it.
    pub fn opener_length(self) -> usize
        ensures { result ≡ length (opener self) }
    {
        match self {
            Bracket::List | Bracket::Tuple => 1,
            Bracket::Set | Bracket::Map => 4,
        }
    }

    // What closes it.
    pub fn closer(self) -> u8
        ensures { result ≡ closer self }
    {
        match self {
            Bracket::List | Bracket::Set | Bracket::Map => b']',
            Bracket::Tuple => b')',
        }
    }

    // Its form.
    pub fn form(self) -> Form
        ensures { number_of_form result ≡ bracket_form self }
    {
        match self {
            Bracket::List => Form::List,
            Bracket::Set => Form::Set,
            Bracket::Map => Form::Map,
            Bracket::Tuple => Form::Tuple,
        }
    }

    // Whether it may stand without items.
    pub fn may_be_empty(self) -> bool
        ensures { result ≡ may_be_empty self }
    {
        !matches!(self, Bracket::Tuple)
    }

    // Whether its items have keys.
    pub fn is_keyed(self) -> bool
        ensures { result ≡ keyed self }
    {
        matches!(self, Bracket::Map)
    }
}
