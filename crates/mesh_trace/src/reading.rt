//! The lines of a trace, one after the other.
ghost use Rattle.std.specs.Prelude.{◌≡◌, ◌∷◌, ◌++◌, ◌<◌, ◌≤◌, ◌↔◌, ℕ, List, length, drop, IsTrue, IsFalse, IfSome, IsNone};
ghost use Rattle.mesh_trace.specs.Reading.Lines.{lines_of, IsLineOf};
ghost use Rattle.mesh_trace.specs.Reading.Worked.{EmptyLines, LastLines, ReturnsStay};
ghost use Rattle.mesh_trace.specs.Reading.Readers.{lines_from, IsReaderOf, TakesLine, IsRest};

use memchr::memchr;
use mesh_atoms::Bytes;
use std::alloc::Global;

// The first line of a text, without its line feed, and how many octets it takes with it.
fn first_line(text: &[u8]) -> (&[u8], usize)
    requires { 0 < length text.now }
    ensures line { lines_of text.now ≡ result.0.now ∷ lines_of (drop result.1 text.now) }
    ensures some { 0 < result.1 }
    ensures within { result.1 ≤ length text.now }
{
    match memchr(b'\n', text) {
        Some(end) => (&text[..end], end + 1),
        None => (text, text.len()),
    }
}

// Whether a line with its line feed is this text.
fn is_line_of(line: &[u8], text: &[u8]) -> bool
    ensures { IsTrue result ↔ IsLineOf line.now text.now }
{
    let len = line.len();
    if text.len() != len + 1 || text[len] != b'\n' {
        return false;
    }
    line == &text[..len]
}

// What stands behind a front of a line; `None` where the line begins otherwise.
fn behind<'a>(line: &'a [u8], front: &[u8]) -> Option<&'a [u8]>
    ensures some { IfSome result (λ rest. line.now ≡ front.now ++ rest.now) }
    ensures none { IsNone result → (rest : List ℕ) → line.now ≡ front.now ++ rest → ⊥ }
{
    if line.len() < front.len() {
        return None;
    }
    let (head, rest) = line.split_at(front.len());
    if head == front { Some(rest) } else { None }
}

/// Where a trace is read: how many octets and lines were taken, and the line that is looked for there.
#[derive(Drop)]
pub struct Reader {
    pub at: usize,
    pub taken: u64,
    pub text: Bytes,
}

impl Reader {
    /// Before the first line.
    pub fn new(alloc: Global) -> Reader
        ensures at { result.at ≡ 0 }
        ensures taken { result.taken ≡ 0 }
    {
        Reader {
            at: 0,
            taken: 0,
            text: Bytes::new(alloc),
        }
    }

    /// Whether all lines were taken.
    pub fn is_done(&self, trace: &[u8]) -> bool
        requires { self.now.at ≤ length trace.now }
        ensures { IsTrue result ↔ (length trace.now ≡ self.now.at) }
    {
        self.at == trace.len()
    }

    /// Takes the next line if it is the one that is looked for.
    pub fn expect(&mut self, trace: &[u8]) -> bool
        requires { IsReaderOf trace.now self.old }
        ensures reading { IsReaderOf trace.now self.new }
        ensures took { IsTrue result → (line : List ℕ) × TakesLine trace.now self.old self.new line × IsLineOf line self.old.text }
        ensures stays { IsFalse result → self.new ≡ self.old }
        ensures other { IsFalse result → (line : List ℕ) (rest : List (List ℕ)) → lines_from trace.now self.old.at ≡ line ∷ rest → ¬ IsLineOf line self.old.text }
    {
        if self.is_done(trace) {
            return false;
        }
        let (line, len) = first_line(&trace[self.at..]);
        if !is_line_of(line, self.text.as_slice()) {
            return false;
        }
        self.at += len;
        self.taken += 1;
        true
    }

    /// The rest of the next line, if it begins with what is looked for.
    pub fn rest<'a>(&self, trace: &'a [u8]) -> Option<&'a [u8]>
        requires { IsReaderOf trace.now self.now }
        ensures { IsRest trace.now self.now result }
    {
        if self.is_done(trace) {
            return None;
        }
        let (line, _) = first_line(&trace[self.at..]);
        behind(line, self.text.as_slice())
    }

    /// Takes the next line, whatever it is.
    pub fn take(&mut self, trace: &[u8])
        requires reading { IsReaderOf trace.now self.old }
        requires left { self.old.at < length trace.now }
        ensures reading { IsReaderOf trace.now self.new }
        ensures took { (line : List ℕ) × TakesLine trace.now self.old self.new line }
    {
        let (_, len) = first_line(&trace[self.at..]);
        self.at += len;
        self.taken += 1;
    }
}

/// Texts and their lines, worked by hand: where lines are empty, how a text may end, and that a carriage return is part of its line.
pub fn worked_texts_have_lines()
    ensures empty { EmptyLines }
    ensures last { LastLines }
    ensures returns { ReturnsStay }
{}
