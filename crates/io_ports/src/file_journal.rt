// A journal in a file. It tells no content.
ghost use Rattle.std.specs.Prelude.{◌≡◌, ◌<◌, ◌≤◌, false, true, length, take, None, is_some, IfSome, IfOk, OnOk, OnErr, IsErr, IsErrOf, is_err, is_ok, refl};
ghost use Rattle.std.proofs.Common.{◌∙◌};
ghost use Rattle.io_ports.specs.Content.{Grows, untold};
ghost use Rattle.io_ports.specs.Counts.{HasCause, Rose, faults_after};
ghost use Rattle.io_ports.specs.Starts.{Begins};

use crate::{Failed, Journal, Sink, StartFault};
use gui_num::NoMemory;
use std::alloc::Global;
use std::fs::{Files, OpenOptions};
use std::io;
use std::io::Write;
use std::marker::Model;
use std::os::unix::fs::OpenOptionsExt;

/// A journal in a file, whose name is given by the last start that succeeded. It tells no content.
///
/// Each error of the file is a fault and is counted, and so is a write that takes nothing of a piece that isn't
/// empty, and a put of such a piece before a start succeeded. A put of an empty piece is Ok(0), is no fault and
/// writes nothing. Contracts see whether a file is open, and the count.
#[derive(Drop)]
pub struct FileJournal<R: Files + Clone + Drop> {
    rt: R,
    file: Option<R::File>,
    faults: u64,
}

impl<R: Files + Clone + Drop> Model for FileJournal<R> {
    ghost use Rattle.std.specs.Prelude.{is_some};
    ghost use Rattle.io_ports.specs.FileJournals.{FileState};

    ghost Value = { FileState };

    ghost view = { λ j. record { opened = is_some j.file; faults = j.faults } };
}

impl<R: Files + Clone + Drop> FileJournal<R> {
    /// A journal that wasn't started. Its only error is that there is no memory.
    pub fn new(rt: &R, _alloc: Global) -> Result<Self, NoMemory>
        ensures closed { IfOk result (λ j. j.opened ≡ false) }
        ensures faults { IfOk result (λ j. j.faults ≡ 0) }
    {
        Ok(FileJournal {
            rt: rt.clone()?,
            file: None,
            faults: 0,
        })
    }
}

// Makes the file, for its owner alone, or empties the one that is there.
fn make<R: Files>(rt: &R, name: &str) -> io::Result<R::File> {
    let mut options = OpenOptions::new();
    options.write(true).create(true).truncate(true).mode(0o600);
    options.open(rt, name)
}

impl<R: Files + Clone + Drop> Sink for FileJournal<R> {
    ghost written = { λ _. untold };

    ghost faults = { λ j. j.faults };

    ghost keeps = { λ a b. b.opened ≡ a.opened };

    ghost keeps_same = { λ _. refl };

    ghost keeps_on = { λ a b c first next. next ∙ first };

    fn put(&mut self, bytes: &[u8]) -> Result<usize, Failed>
        ensures bound { IfOk result (λ n. n ≤ length bytes.now) }
        ensures some { IfOk result (λ n. 0 < length bytes.now → 0 < n) }
        ensures grows { IfOk result (λ n. Grows untold (take n bytes.now) untold) }
        ensures same { OnErr result (untold ≡ untold) }
        ensures keeps { self.new.opened ≡ self.old.opened }
        ensures cause { HasCause self.old.faults self.new.faults result }

        // Nothing is taken before a start, and each failure is counted once.
        ensures empty { length bytes.now ≡ 0 → result ≡ Ok 0 }
        ensures closed { self.old.opened ≡ false → 0 < length bytes.now → IsErr result }
        ensures counts { self.new.faults ≡ faults_after (is_err result) self.old.faults }
    {
        if bytes.is_empty() {
            return Ok(0);
        }
        match write_some(&mut self.file, bytes) {
            Some(n) => Ok(n),
            None => {
                self.faults = self.faults.saturating_add(1);
                Err(Failed)
            }
        }
    }
}

// What the file took of a piece that isn't empty, where it took something.
fn write_some<F: Write>(file: &mut Option<F>, bytes: &[u8]) -> Option<usize>
    ensures bound { IfSome result (λ n. n ≤ length bytes.now) }
    ensures some { IfSome result (λ n. 0 < n) }
    ensures closed { file.old ≡ None → result ≡ None }
    ensures kept { is_some file.new ≡ is_some file.old }
{
    match file {
        Some(open) => match open.write(bytes) {
            Ok(n) if n > 0 => Some(n),
            _ => None,
        },
        None => None,
    }
}

impl<R: Files + Clone + Drop> Journal for FileJournal<R> {
    ghost starts = { λ _. None };

    ghost puts_start_nothing = { λ _ _ _. refl };

    /// Makes the file of this name, for its owner alone, or empties the one that is there. Where that fails
    /// the file before it, if any, stays the journal's.
    fn start(&mut self, name: &str) -> Result<(), StartFault>
        ensures begins { Begins None name.now (is_ok result) None }
        ensures written { untold ≡ untold }
        ensures later { self.old.faults ≤ self.new.faults }
        ensures failed { IsErrOf result StartFault.Failed → Rose self.old.faults self.new.faults }

        // It stands on the file alone, and each failure is counted once.
        ensures opened { OnOk result (self.new.opened ≡ true) }
        ensures kept { OnErr result (self.new.opened ≡ self.old.opened) }
        ensures counts { self.new.faults ≡ faults_after (is_err result) self.old.faults }
        ensures cause { OnErr result (result ≡ Err StartFault.Failed) }
    {
        match make(&self.rt, name) {
            Ok(file) => {
                self.file = Some(file);
                Ok(())
            }
            Err(_) => {
                self.faults = self.faults.saturating_add(1);
                Err(StartFault::Failed)
            }
        }
    }
}
