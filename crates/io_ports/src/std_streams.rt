// The readers and writers of std as sources and sinks. They tell no content.
ghost use Rattle.std.specs.Prelude.{◌≡◌, ℕ, ◌<◌, ◌≤◌, ◌↔◌, [], length, take, IfOk, OnErr, is_err, ⊤};
ghost use Rattle.std.specs.Io.KnownBytes.{Keeps, ReadConsumes, WriteAppends};
ghost use Rattle.io_ports.specs.Content.{Grows, Taken, Told, untold};
ghost use Rattle.io_ports.specs.Counts.{HasCause, faults_after};
ghost use Rattle.io_ports.specs.StdStreams.{read_faults, reader_of, write_faults, writer_of};

use crate::{Failed, Sink, Source};
use std::io::{Read, Write};

/// A reader of std as a source. It tells no content.
///
/// Each error of the reader is a fault and is counted, one that a signal brought about too.
#[derive(Drop)]
pub struct StdSource<R> {
    inner: R,
    faults: u64,
}

impl<R: Read> StdSource<R> {
    /// A source over this reader that hasn't failed.
    pub fn new(inner: R) -> Self
        ensures inner { reader_of result ≡ inner }
        ensures faults { read_faults result ≡ 0 }
    {
        StdSource { inner, faults: 0 }
    }
}

impl<R: Read> Source for StdSource<R> {
    ghost left = { λ _. untold };

    ghost faults = { λ s. read_faults s };

    ghost keeps_same = { λ _. tt };

    ghost keeps_on = { λ _ _ _ _ _. tt };

    fn read(&mut self, room: &mut [u8]) -> Result<usize, Failed>
        ensures bound { IfOk result (λ n. n ≤ length room.old) }
        ensures taken { IfOk result (λ n. Told untold (λ bytes. Taken bytes n room.new untold)) }
        ensures end { IfOk result (λ n. Told untold (λ bytes. 0 < length room.old → n ≡ 0 ↔ (bytes ≡ []))) }
        ensures same { OnErr result (untold ≡ untold) }
        ensures keeps { ⊤ }
        ensures cause { HasCause (read_faults self.old) (read_faults self.new) result }

        // It gives what the reader gave, and counts its failures alone.
        ensures counts { read_faults self.new ≡ faults_after (is_err result) (read_faults self.old) }
        ensures given { ReadConsumes (R.remaining (reader_of self.old)) (R.remaining (reader_of self.new)) result room.new }
    {
        match self.inner.read(room) {
            Ok(n) => Ok(n),
            Err(_) => {
                self.faults = self.faults.saturating_add(1);
                Err(Failed)
            }
        }
    }
}

/// A writer of std as a sink. It tells no content.
///
/// Each error of the writer is a fault and is counted, and so is a write that takes nothing of a
/// piece that isn't empty. A put of an empty piece is Ok(0), is no fault and writes nothing.
#[derive(Drop)]
pub struct StdSink<W> {
    inner: W,
    faults: u64,
}

impl<W: Write> StdSink<W> {
    /// A sink over this writer that hasn't failed.
    pub fn new(inner: W) -> Self
        ensures inner { writer_of result ≡ inner }
        ensures faults { write_faults result ≡ 0 }
    {
        StdSink { inner, faults: 0 }
    }

    /// Flushes the writer. Its error is a fault, and is counted.
    pub fn flush(&mut self) -> Result<(), Failed>
        ensures counts { write_faults self.new ≡ faults_after (is_err result) (write_faults self.old) }
        ensures cause { HasCause (write_faults self.old) (write_faults self.new) result }
        ensures kept { Keeps (W.contents (writer_of self.old)) (W.contents (writer_of self.new)) }
    {
        match self.inner.flush() {
            Ok(()) => Ok(()),
            Err(_) => {
                self.faults = self.faults.saturating_add(1);
                Err(Failed)
            }
        }
    }
}

impl<W: Write> Sink for StdSink<W> {
    ghost written = { λ _. untold };

    ghost faults = { λ s. write_faults s };

    ghost keeps_same = { λ _. tt };

    ghost keeps_on = { λ _ _ _ _ _. tt };

    fn put(&mut self, bytes: &[u8]) -> Result<usize, Failed>
        ensures bound { IfOk result (λ n. n ≤ length bytes.now) }
        ensures some { IfOk result (λ n. 0 < length bytes.now → 0 < n) }
        ensures grows { IfOk result (λ n. Grows untold (take n bytes.now) untold) }
        ensures same { OnErr result (untold ≡ untold) }
        ensures keeps { ⊤ }
        ensures cause { HasCause (write_faults self.old) (write_faults self.new) result }

        // It answers what the writer took, and counts its failures alone.
        ensures empty { length bytes.now ≡ 0 → result ≡ Ok 0 }
        ensures counts { write_faults self.new ≡ faults_after (is_err result) (write_faults self.old) }
        ensures taken { WriteAppends (W.contents (writer_of self.old)) (W.contents (writer_of self.new)) result bytes.now }
    {
        if bytes.is_empty() {
            return Ok(0);
        }
        match self.inner.write(bytes) {
            Ok(n) if n > 0 => Ok(n),
            _ => {
                self.faults = self.faults.saturating_add(1);
                Err(Failed)
            }
        }
    }
}
