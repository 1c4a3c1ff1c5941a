//! The listing of empty lines.
ghost use Rattle.std.specs.Prelude.{◌≡◌, ◌+◌, ◌%◌, ◌^◌, ◌<◌};
ghost use Rattle.mesh_dump.specs.Empty.{empty_line};

use itoa::write_digits;
use std::marker::Model;

// Where the digits of the number end.
const END: usize = 25;

/// The listing of an empty line, made from that of the line before where it can be. Contracts see it as the line's number.
#[derive(Drop)]
pub struct EmptyLine {
    number: u64,
    text: [u8; 54],
    start: usize,
}

impl Model for EmptyLine {
    ghost use Rattle.std.specs.Prelude.{ℕ};
    ghost use Rattle.mesh_dump.specs.Empty.{HoldsEmptyLine};

    ghost Value = { ℕ };

    ghost view = { λ e. e.number };

    ghost invariant = { λ e. HoldsEmptyLine e.number e.start e.text };
}

impl EmptyLine {
    /// That of a line 0.
    pub fn new() -> EmptyLine
        ensures { result ≡ 0 }
    {
        EmptyLine {
            number: 0,
            text: *b"                   line 0 refused at 0 reason 1 Short\n",
            start: 19,
        }
    }

    /// The text.
    pub fn text(&self) -> &[u8]
        ensures { result.now ≡ empty_line self.now }
    {
        &self.text[self.start..]
    }

    // Makes the text anew.
    fn set(&mut self, number: u64)
        ensures { self.new ≡ number }
    {
        let at = write_digits(number, &mut self.text, END);
        self.text[at - 5..at].copy_from_slice(b"line ");
        self.start = at - 5;
        self.number = number;
    }

    /// Goes on to the line of this number.
    #[inline(always)]
    pub fn go_to(&mut self, number: u64)
        ensures { self.new ≡ number }
    {
        let last = number % 10;
        // The next number, where it doesn't end in 0, differs in its last digit alone.
        if last > 0 && number - 1 == self.number {
            self.text[END - 1] = b'0' + last as u8;
            self.number = number;
        } else {
            self.set(number);
        }
    }
}
