// Lines of Content, each with its text at its new depth.
// Document 01, "Canonical form": Content text stands one tab deeper than its marker; empty text is an empty line; LF line ends.
ghost use Rattle.std.specs.Prelude.{◌≡◌, ◌≤◌, ◌<◌, not, length, drop, IfSome};
ghost use Rattle.paper.specs.Bytes.{is_blank, all, length_in};
ghost use Rattle.paper.specs.Reading.{is_tab};
ghost use Rattle.paper.specs.Canonical.{print_line};
ghost use Rattle.quoting.specs.Page.{Puts};
ghost use Rattle.printing.specs.Texts.{inked, LineStays, LinesStay, PastEnd, LinesPut};
ghost use Rattle.printing.specs.Walking.{ContentPut};

use crate::laid::Laid;
use quoting::page::Page;
use text::parts::starts_with;
use text::runs::{self, Blank};

// Puts the lines of the Content of entry n, with their text at so many tabs. Answers which entry comes next.
// The closing line behind them has the tabs of their marker.
pub fn put_content(page: &mut Page, laid: Laid, n: usize, tabs: usize) -> usize
    ensures { ContentPut laid.entry.s.now laid.entry.cells.now n tabs page.old result page.new }
{
    if !laid.has(n) {
        return n;
    }
    let own = laid.at(n);
    let cut = tabs_at(laid.s, own.end as usize) + 1;
    put_lines(page, laid.spelling(own), cut, tabs);
    n + 1
}

// How many tabs stand at `at`.
fn tabs_at(s: &[u8], at: usize) -> usize
    ensures { (result ≡ length_in is_tab (drop at s.now)) × (result ≤ length s.now) }
{
    if s.len() <= at {
        return 0;
    }
    runs::tab_end(s, at) - at
}

// Puts lines whose text stands behind `cut` tabs, with their text at so many tabs. Those that stay as they are go in one copy.
fn put_lines(page: &mut Page, lines: &[u8], cut: usize, tabs: usize)
    ensures { LinesPut lines.now cut tabs page.old page.new }
{
    // How far lines go is known only when they are read, so the place is kept by hand.
    let mut i = 0;
    while i < lines.len() {
        let next = past_staying(lines, i, cut, tabs);
        if i < next {
            page.put(&lines[i..next]);
            i = next;
        } else {
            let end = runs::text_end(lines, runs::tab_end(lines, i));
            put_line(page, &lines[i..end], cut, tabs);
            i = line_after(lines, end);
        }
    }
}

// Past whole lines at `at` that are put as they stand.
fn past_staying(lines: &[u8], at: usize, cut: usize, tabs: usize) -> usize
    requires { at ≤ length lines.now }
    ensures { LinesStay lines.now cut tabs at result }
{
    if cut != tabs {
        return at;
    }
    let mut i = at;
    while let Some(next) = past_line(lines, i) {
        i = next;
    }
    i
}

// Past the line at `at` if it is put as it stands: an empty one or text with no space behind its tabs, and LF behind it.
fn past_line(s: &[u8], at: usize) -> Option<usize>
    requires { at ≤ length s.now }
    ensures { IfSome result (λ next. (at < next) × LineStays s.now at next) }
{
    let mark = runs::tab_end(s, at);
    let end = runs::text_end(s, mark);
    if end == s.len() || s[end] != b'\n' {
        return None;
    }
    if end == at {
        return Some(end + 1);
    }
    if mark < end && s[mark] != b' ' {
        return Some(end + 1);
    }
    None
}

// Whether a line has more than spaces and tabs behind `cut` bytes.
fn has_ink(line: &[u8], cut: usize) -> bool
    ensures { result ≡ not (all is_blank (drop cut line.now)) }
{
    cut < line.len() && runs::end::<Blank>(line, cut) < line.len()
}

// Puts a line whose text stands behind `cut` bytes: the text at so many tabs, or an empty line where it is only spaces and tabs.
fn put_line(page: &mut Page, line: &[u8], cut: usize, tabs: usize)
    ensures { Puts page.old (print_line tabs (inked (drop cut line.now))) page.new }
{
    if has_ink(line, cut) {
        page.put_tabs(tabs);
        page.put(&line[cut..]);
    }
    page.put_byte(b'\n');
}

// Behind the line end that stands at `at`.
fn line_after(s: &[u8], at: usize) -> usize
    requires { at ≤ length s.now }
    ensures { PastEnd s.now at result }
{
    if starts_with(s, at, b"\r") {
        at + 2
    } else {
        at + 1
    }
}
