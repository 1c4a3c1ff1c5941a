//! A short text, made whole before it is put behind other octets.
ghost use Rattle.std.specs.Prelude.{◌≡◌, ◌++◌, ◌+◌, ◌*◌, ◌/◌, ◌%◌, ◌≤◌, ◌<◌, [], ◌∷◌, length, decimal};
ghost use Rattle.hex.specs.Hex.{encode_lower};

use crate::hexadecimal::lay_hex;
use std::marker::Model;

/// A text of at most 4,096 octets. Contracts see it as the list.
#[derive(Drop)]
pub(crate) struct TextBuffer {
    octets: [u8; 4096],
    len: usize,
}

impl Model for TextBuffer {
    ghost use Rattle.std.specs.Prelude.{List, ℕ, ◌≤◌, take};

    ghost Value = { List ℕ };

    ghost view = { λ p. take p.len p.octets };

    ghost invariant = { λ p. p.len ≤ 4096 };
}

impl TextBuffer {
    /// No octets.
    pub(crate) fn new() -> TextBuffer
        ensures { result ≡ [] }
    {
        TextBuffer {
            octets: [0; 4096],
            len: 0,
        }
    }

    /// The octets as a slice.
    pub(crate) fn as_slice(&self) -> &[u8]
        ensures { result.now ≡ self.now }
    {
        &self.octets[..self.len]
    }

    /// How many octets there are.
    #[inline(always)]
    pub(crate) fn len(&self) -> usize
        ensures { result ≡ length self.now }
    {
        self.len
    }

    /// Takes all octets out.
    pub(crate) fn clear(&mut self)
        ensures { self.new ≡ [] }
    {
        self.len = 0;
    }

    /// Puts octets.
    #[inline(always)]
    pub(crate) fn put(&mut self, octets: &[u8])
        requires { length self.old + length octets.now ≤ 4096 }
        ensures text { self.new ≡ self.old ++ octets.now }
        ensures len { length self.new ≡ length self.old + length octets.now }
    {
        let end = self.len + octets.len();
        self.octets[self.len..end].copy_from_slice(octets);
        self.len = end;
    }

    /// Puts a text of known length.
    #[inline(always)]
    pub(crate) fn put_text<const N: usize>(&mut self, text: [u8; N])
        requires { length self.old + N ≤ 4096 }
        ensures text { self.new ≡ self.old ++ text.entry }
        ensures len { length self.new ≡ length self.old + N }
    {
        self.put(&text);
    }

    /// Puts octets in lower-case hexadecimal digits.
    #[inline(always)]
    pub(crate) fn put_hex(&mut self, octets: &[u8])
        requires { length self.old + 2 * length octets.now ≤ 4096 }
        ensures text { self.new ≡ self.old ++ encode_lower octets.now }
        ensures len { length self.new ≡ length self.old + 2 * length octets.now }
    {
        let end = self.len + 2 * octets.len();
        lay_hex(octets, &mut self.octets[self.len..end]);
        self.len = end;
    }

    // Puts an octet.
    #[inline(always)]
    fn push(&mut self, octet: u8)
        requires { length self.old < 4096 }
        ensures { self.new ≡ self.old ++ octet ∷ [] }
    {
        self.octets[self.len] = octet;
        self.len += 1;
    }

    // Puts the last two digits of a number, by the number that they write.
    #[inline(always)]
    fn put_pair(&mut self, number: u8)
        requires room { length self.old + 2 ≤ 4096 }
        requires most { number < 100 }
        ensures { self.new ≡ self.old ++ ((48 + number / 10) ∷ ((48 + number % 10) ∷ [])) }
    {
        self.push(b'0' + number / 10);
        self.push(b'0' + number % 10);
    }

    // Puts a number of one or two digits.
    #[inline(always)]
    fn put_small(&mut self, number: u8)
        requires room { length self.old + length (decimal number) ≤ 4096 }
        requires most { number < 100 }
        ensures text { self.new ≡ self.old ++ decimal number }
        ensures len { length self.new ≡ length self.old + length (decimal number) }
    {
        if number < 10 {
            self.push(b'0' + number);
        } else {
            self.put_pair(number);
        }
    }

    // Puts a number of four digits at most.
    #[inline(always)]
    fn put_few(&mut self, number: u64)
        requires room { length self.old + length (decimal number) ≤ 4096 }
        requires most { number < 10000 }
        ensures text { self.new ≡ self.old ++ decimal number }
        ensures len { length self.new ≡ length self.old + length (decimal number) }
    {
        if number > 99 {
            self.put_small((number / 100) as u8);
            self.put_pair((number % 100) as u8);
        } else {
            self.put_small(number as u8);
        }
    }

    // Puts a number in decimal digits.
    fn put_digits(&mut self, number: u64)
        requires { length self.old + length (decimal number) ≤ 4096 }
        ensures text { self.new ≡ self.old ++ decimal number }
        ensures len { length self.new ≡ length self.old + length (decimal number) }
    {
        if number > 9999 {
            self.put_digits(number / 100);
            self.put_pair((number % 100) as u8);
        } else {
            self.put_few(number);
        }
    }

    /// Puts a number in decimal digits.
    #[tactic(auto, using(crate::proofs::Decimals::decimals))]
    #[inline(always)]
    pub(crate) fn put_number(&mut self, number: u64)
        requires { length self.old + 20 ≤ 4096 }
        ensures text { self.new ≡ self.old ++ decimal number }
        ensures len { length self.new ≤ length self.old + 20 }
    {
        if number < 100 {
            self.put_small(number as u8);
        } else {
            self.put_digits(number);
        }
    }
}
