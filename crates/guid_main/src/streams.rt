// What stands between the top call and the outside: the program's words, its streams, and the line
// that it ends with.
ghost use Rattle.std.specs.Prelude.{◌≡◌, ◌≤◌, ◌⊎◌, drop, IfOk, OnOk, IsErr, is_ok};
ghost use Rattle.std.specs.Io.KnownBytes.{Appends};
ghost use Rattle.std.specs.IoError.{error_kind};
ghost use Rattle.std.specs.Vec.Iter.{into_iter_items};
ghost use Rattle.io_ports.specs.Counts.{Rose};
ghost use Rattle.io_ports.specs.StdStreams.{write_faults};
ghost use Rattle.guid_main.specs.Statuses.{after_args, after_flush, told_of};
ghost use Rattle.guid_main.specs.WordForms.{HasNoForm};

use crate::run::run;
use crate::status::Status;
use io_ports::{Failed, Source, StdSink, StdSource};
use std::alloc::{AllocError, Global};
use std::env::Args;
use std::io::{self, BufReader, BufWriter, ErrorKind, Read, Write};

// How many bytes the buffer of a standard stream has.
const STREAM_BUFFER: usize = 65536;

/// The words behind the program's name, all of them in their order. Its only error is that there is
/// no memory to keep them.
pub fn words_behind(alloc: Global, mut args: Args) -> Result<Vec<String>, AllocError>
    ensures { IfOk result (λ words. words.items ≡ drop 1 (into_iter_items args)) }
{
    let _program = args.next();
    let mut words = Vec::new(alloc);
    for word in args {
        words.push(word)?;
    }
    Ok(words)
}

/// The status where the program's words can't be had: there is no memory for them, or one of them isn't
/// text, and so isn't a known form.
pub fn after_args(error: &io::Error) -> Status
    ensures { result ≡ after_args (error_kind error.now) }
{
    if error.kind() == ErrorKind::OutOfMemory {
        Status::NoMemory
    } else {
        Status::Usage
    }
}

// What a flush of the output makes of a status: where it failed, what was answered to be written may
// not be there.
fn after_flush(status: Status, flushed: Result<(), Failed>) -> Status
    ensures is { result ≡ after_flush status (is_ok flushed) }
    ensures failed { result ≡ Status.WriteFault → (status ≡ Status.WriteFault) ⊎ IsErr flushed }
    ensures read { result ≡ Status.ReadFault → status ≡ Status.ReadFault }
    ensures words { result ≡ Status.Usage → status ≡ Status.Usage }
{
    match flushed {
        Ok(()) => status,
        Err(Failed) => Status::WriteFault,
    }
}

/// Does what `run` does, and then flushes the output, whatever was answered: a flush that fails is a
/// write fault.
pub fn run_flushed<S: Source, W: Write>(
    alloc: Global,
    words: &Vec<String>,
    input: &mut S,
    out: &mut StdSink<W>,
) -> Status
    ensures usage { result ≡ Status.Usage → HasNoForm words.now.items }
    ensures words { HasNoForm words.now.items → (result ≡ Status.Usage) ⊎ (result ≡ Status.WriteFault) }
    ensures read_later { S.faults input.old ≤ S.faults input.new }
    ensures read { result ≡ Status.ReadFault → Rose (S.faults input.old) (S.faults input.new) }
    ensures write_later { write_faults out.old ≤ write_faults out.new }
    ensures write { result ≡ Status.WriteFault → Rose (write_faults out.old) (write_faults out.new) }
{
    let status = run(alloc, words, input, out);
    after_flush(status, out.flush())
}

/// Does what `run` does over a reader and a writer of std, both through buffers. `NoMemory` where there
/// is none for these; nothing was read or written then.
pub fn run_streams<R: Read + Drop, W: Write + Drop>(
    alloc: Global,
    words: &Vec<String>,
    reader: R,
    writer: W,
) -> Status
    ensures usage { result ≡ Status.Usage → HasNoForm words.now.items }
    ensures words { HasNoForm words.now.items → (result ≡ Status.Usage) ⊎ ((result ≡ Status.WriteFault) ⊎ (result ≡ Status.NoMemory)) }
{
    let Ok(reader) = BufReader::with_capacity(alloc, STREAM_BUFFER, reader) else {
        return Status::NoMemory;
    };
    let Ok(writer) = BufWriter::with_capacity(alloc, STREAM_BUFFER, writer) else {
        return Status::NoMemory;
    };
    run_flushed(
        alloc,
        words,
        &mut StdSource::new(reader),
        &mut StdSink::new(writer),
    )
}

/// Writes the line of a status, and nothing for `Done`. What was written where it fails isn't told.
pub fn tell<W: Write>(to: &mut W, status: &Status) -> io::Result<()>
    ensures { OnOk result (Appends (W.contents to.old) (W.contents to.new) (told_of status.now)) }
{
    match status {
        Status::Done => Ok(()),
        _ => to.writeln(*status),
    }
}
