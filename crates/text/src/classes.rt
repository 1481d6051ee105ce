// Classes of ASCII bytes: letters, digits, and what names and white space are made of.
// Document 01, "The grammar", Bytes, Names and Values.
ghost use Rattle.std.specs.Prelude.{◌≡◌, true, ◌||◌, ◌<◌};
ghost use Rattle.paper.specs.Bytes.{within, is_upper, is_lower, is_digit, is_letter, is_name_byte, is_hex, is_blank, is_line_end, is_white};
ghost use Rattle.paper.specs.Bytes.{bytes, elem};
ghost use Rattle.paper.specs.Values.{hex_digit};

// Whether the byte lies from `low` to `high`, both counted.
pub fn is_within(low: u8, high: u8, b: u8) -> bool
    ensures { result ≡ within low high b }
{
    (low..=high).contains(&b)
}

pub fn is_upper(b: u8) -> bool
    ensures { result ≡ is_upper b }
{
    b.is_ascii_uppercase()
}

pub fn is_lower(b: u8) -> bool
    ensures { result ≡ is_lower b }
{
    b.is_ascii_lowercase()
}

pub fn is_digit(b: u8) -> bool
    ensures { result ≡ is_digit b }
{
    b.is_ascii_digit()
}

pub fn is_letter(b: u8) -> bool
    ensures { result ≡ is_letter b }
{
    b.is_ascii_alphabetic()
}

// Whether names are made of the byte: a letter or a digit.
pub fn is_name_byte(b: u8) -> bool
    ensures { result ≡ is_name_byte b }
{
    b.is_ascii_alphanumeric()
}

// Whether the byte is a hex digit, in either case.
pub fn is_hex(b: u8) -> bool
    ensures { result ≡ is_hex b }
{
    b.is_ascii_hexdigit()
}

// The number that a hex digit spells, in either case.
pub fn hex_digit(b: u8) -> u8
    requires { is_hex b ≡ true }
    ensures { (result ≡ hex_digit b) × (result < 16) }
{
    if is_digit(b) {
        b - b'0'
    } else if is_upper(b) {
        b - b'A' + 10
    } else {
        b - b'a' + 10
    }
}

// Whether the byte is a space or a tab.
pub fn is_blank(b: u8) -> bool
    ensures { result ≡ is_blank b }
{
    b == b' ' || b == b'\t'
}

// Whether the byte is LF, or CR, which stands only before LF.
pub fn is_line_end(b: u8) -> bool
    ensures { result ≡ is_line_end b }
{
    b == b'\n' || b == b'\r'
}

// Whether the byte is white space: a space, a tab, or of a line end.
pub fn is_white(b: u8) -> bool
    ensures { result ≡ is_white b }
{
    is_blank(b) || is_line_end(b)
}

// Whether the byte is one of these.
pub fn is_one_of(b: u8, these: &[u8]) -> bool
    ensures { result ≡ elem b these.now }
{
    these.contains(&b)
}

// Whether the scheme of an IRI is made of the byte.
pub fn is_scheme_byte(b: u8) -> bool
    ensures { result ≡ (is_name_byte b || elem b (bytes "+-.")) }
{
    is_name_byte(b) || is_one_of(b, b"+-.")
}
