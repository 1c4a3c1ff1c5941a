//! Sources and sinks over std's readers and writers, with a count of the errors. A call that the system interrupted is no
//! error: it is made again.
ghost use Rattle.std.specs.Prelude.{◌≡◌, ◌≤◌, ◌<◌, ◌+◌, [], length, IsTrue, IsErr};
ghost use Rattle.std.specs.Io.{ReadsAtMost, WritesAtMost};
ghost use Rattle.std.specs.Io.Buffered.{writer_buffer, writer_contents};
ghost use Rattle.std.specs.Io.KnownBytes.{Keeps, ReadConsumes, WriteAppends};

use mesh_io::{Put, Sink, Source, Took};
use std::io::{self, BufWriter, ErrorKind, Read, Write};

// Whether the system interrupted a call before it read or wrote anything.
fn is_interrupted(answer: &io::Result<usize>) -> bool
    ensures { IsTrue result → IsErr answer.now }
{
    match answer {
        Ok(_) => false,
        Err(e) => e.kind() == ErrorKind::Interrupted,
    }
}

// Reads once, and again where the system interrupted that, 2^64 - 1 times at most.
fn read_again<R: Read>(reader: &mut R, buf: &mut [u8]) -> io::Result<usize>
    ensures bound { ReadsAtMost result buf.new }
    ensures bytes { ReadConsumes (R.remaining reader.old) (R.remaining reader.new) result buf.new }
{
    for _ in 1..u64::MAX {
        let answer = reader.read(buf);
        if !is_interrupted(&answer) {
            return answer;
        }
    }
    reader.read(buf)
}

// Writes once, and again where the system interrupted that, 2^64 - 1 times at most.
fn write_again<W: Write>(writer: &mut W, bytes: &[u8]) -> io::Result<usize>
    ensures bound { WritesAtMost result bytes.now }
    ensures content { WriteAppends (W.contents writer.old) (W.contents writer.new) result bytes.now }
{
    for _ in 1..u64::MAX {
        let answer = writer.write(bytes);
        if !is_interrupted(&answer) {
            return answer;
        }
    }
    writer.write(bytes)
}

/// A source over a reader. It reads 2^64 - 1 octets at most, and counts a fault where more are asked of it.
#[derive(Drop)]
pub struct ReaderSource<R> {
    inner: R,
    taken: u64,
    faults: u64,
}

impl<R: Read> ReaderSource<R> {
    /// A source over that reader, which has taken nothing and counted no fault.
    pub fn new(inner: R) -> ReaderSource<R> {
        ReaderSource {
            inner,
            taken: 0,
            faults: 0,
        }
    }
}

impl<R: Read> Source for ReaderSource<R> {
    ghost left = { λ s. R.remaining s.inner };

    ghost taken = { λ s. s.taken };

    ghost faults = { λ s. s.faults };

    fn take(&mut self, buf: &mut [u8]) -> Took {
        if buf.is_empty() {
            return Took::Bytes(0);
        }
        if buf.len() as u64 > u64::MAX - self.taken {
            self.faults = self.faults.saturating_add(1);
            return Took::Failed;
        }
        match read_again(&mut self.inner, buf) {
            Ok(0) => Took::End,
            Ok(count) => {
                self.taken += count as u64;
                Took::Bytes(count)
            }
            Err(_) => {
                self.faults = self.faults.saturating_add(1);
                Took::Failed
            }
        }
    }
}

/// A sink over a writer. It counts a fault too where the writer takes no octet.
#[derive(Drop)]
pub struct Writing<W> {
    inner: W,
    faults: u64,
}

impl<W: Write> Writing<W> {
    /// A sink over that writer, which has counted no fault.
    pub fn new(inner: W) -> Writing<W> {
        Writing { inner, faults: 0 }
    }
}

impl<W: Write + Drop> Writing<BufWriter<W>> {
    /// Hands over what the writer gathered, and tells whether that went well: nothing is gathered then. What was put stays the same.
    pub fn flush(&mut self) -> bool
        ensures kept { Keeps (writer_contents W.contents self.old.inner) (writer_contents W.contents self.new.inner) }
        ensures empty { IsTrue result → writer_buffer self.new.inner ≡ [] }
    {
        self.inner.flush().is_ok()
    }
}

impl<W: Write> Sink for Writing<W> {
    ghost content = { λ s. W.contents s.inner };

    ghost faults = { λ s. s.faults };

    fn put(&mut self, bytes: &[u8]) -> Put {
        if bytes.is_empty() {
            return Put::Took(0);
        }
        match write_again(&mut self.inner, bytes) {
            Ok(count) => {
                if count > 0 {
                    return Put::Took(count);
                }
                self.faults = self.faults.saturating_add(1);
                Put::Failed
            }
            Err(_) => {
                self.faults = self.faults.saturating_add(1);
                Put::Failed
            }
        }
    }
}
