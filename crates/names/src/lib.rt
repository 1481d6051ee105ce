// Names: the rule for those of Concepts and traits.
// Document 01, "The grammar", Names, and "Sizes".
#![tactic(auto)]

ghost use Rattle.std.specs.Prelude.{◌≡◌, ◌&&◌, ◌-◌, ◌≤◌, length, leb};
ghost use Rattle.paper.specs.Names.{name_limit, is_concept_name};
ghost use Rattle.names.specs.Runs.{Measures};

use text::classes;

// Names are at most so many bytes.
pub const LIMIT: usize = 32;

// So many upper case letters may stand in a row.
const CAPITALS: usize = 2;

// Keys are below this number.
pub const KEYS: usize = 65536;

// By this number a key is spread with each letter. It is KEYS by the golden ratio, made odd: in an index of 2,048 cells, names that differ by
// one in one of their letters begin 43 cells apart at least, and mostly some hundreds.
const SPREAD: usize = 40503;

// A run of letters and digits: where it ends, whether it keeps the rule of names but for how it starts, and a key of all its letters, by
// which it is found among others.
#[derive(Clone, Copy)]
pub struct Run {
    pub end: usize,
    pub keeps: bool,
    pub key: usize,
}

// Whether the name keeps to the rule of a Concept's name.
pub fn is_concept_name(name: &[u8]) -> bool
    ensures { result ≡ is_concept_name name.now }
{
    let Some(&first) = name.first() else {
        return false;
    };
    let run = run_at(name, 0);
    run.end == name.len() && classes::is_upper(first) && run.keeps
}

// The run of letters and digits that stands at `at`, measured, judged and given its key in one pass.
// Lower case comes first: most bytes of a name are lower case letters.
pub fn run_at(s: &[u8], at: usize) -> Run
    requires { at ≤ length s.now }
    ensures { Measures s.now at result }
{
    let mut capitals = 0;
    let mut few = true;
    let mut key = 0;
    for i in at..s.len() {
        let b = s[i];
        if classes::is_lower(b) {
            capitals = 0;
        } else if classes::is_upper(b) {
            if capitals == CAPITALS {
                few = false;
            } else {
                capitals += 1;
            }
        } else if classes::is_digit(b) {
            capitals = 0;
        } else {
            return judged(at, i, few, key);
        }
        key = (key + b as usize) * SPREAD % KEYS;
    }
    judged(at, s.len(), few, key)
}

// The run from `at` to `end` with this key, in which few capitals stand in a row or not, by its length.
fn judged(at: usize, end: usize, few: bool, key: usize) -> Run
    requires { at ≤ end }
    ensures { (result.end ≡ end) × (result.keeps ≡ (few && leb (end - at) name_limit)) × (result.key ≡ key) }
{
    Run {
        end,
        keeps: few && end - at <= LIMIT,
        key,
    }
}
