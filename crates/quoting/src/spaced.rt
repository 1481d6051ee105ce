// White space collapsed, as in annotations and backtick strings, and UUIDs in lower case.
// Document 01, "Canonical form": space and tab runs become one space, ends trimmed; UUIDs: lower case.
ghost use Rattle.std.specs.Prelude.{◌≡◌, true, false, ◌++◌, map};
ghost use Rattle.paper.specs.Bytes.{is_white};
ghost use Rattle.paper.specs.Values.{collapse};
ghost use Rattle.paper.specs.Canonical.{lower};
ghost use Rattle.quoting.specs.Page.{Puts};
ghost use Rattle.quoting.specs.Spacing.{widened, gap_onto};

use crate::page::Page;
use text::classes::is_white;

// What stands before the next byte: no word, a word directly, or a word and then white space.
#[derive(Clone, Copy)]
pub enum Spacing {
    Start,
    Word,
    Gap,
}

impl Spacing {
    // Passes a byte, and answers whether it is to be put. A space is put before it if it begins a word behind another.
    pub fn passes(&mut self, page: &mut Page, b: u8) -> bool
        ensures white { result ≡ false
            → (is_white b ≡ true) × (self.new ≡ widened self.old) × (page.new ≡ page.old) }
        ensures word { result ≡ true
            → (is_white b ≡ false) × (self.new ≡ Spacing.Word) × Puts page.old (gap_onto self.old) page.new }
    {
        if is_white(b) {
            if let Spacing::Word = *self {
                *self = Spacing::Gap;
            }
            return false;
        }
        if let Spacing::Gap = *self {
            page.put_byte(b' ');
        }
        *self = Spacing::Word;
        true
    }
}

// Puts these bytes with each run of white space as one space, and none at the ends.
pub fn put_collapsed(page: &mut Page, w: &[u8])
    ensures { Puts page.old (λ next. collapse w.now ++ next) page.new }
{
    // A page of its own keeps the place where no byte that is stored could change it, so that it is not read again for each.
    let mut own = Page {
        out: &mut *page.out,
        at: page.at,
    };
    let mut spacing = Spacing::Start;
    for &b in w {
        if spacing.passes(&mut own, b) {
            own.put_byte(b);
        }
    }
    page.at = own.at;
}

// Puts these bytes in lower case.
pub fn put_lower(page: &mut Page, w: &[u8])
    ensures { Puts page.old (λ next. map lower w.now ++ next) page.new }
{
    page.put_each(w, |b| b.to_ascii_lowercase());
}
