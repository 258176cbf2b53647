// One socket, which listens until it takes its one connection.
ghost use Rattle.std.specs.Prelude.{◌≤◌, length, IfOk};
ghost use Rattle.desk_laws.specs.declared.limits.TheConstants.{MAX_PIECE};
ghost use Rattle.live_feed.specs.Given.{ReadsSome};

use crate::row::Row;
use desk_laws::MAX_PIECE;
use io_ports::{Failed, FeedFault, StartFault};
use mio::net::{UnixListener, UnixStream};
use mio::{Interest, Registry, Token};
use std::fs::{Files, Permissions};
use std::io::{ErrorKind, Read, Write};
use std::net::Net;
use std::os::unix::fs::{FileTypeExt, PermissionsExt};
use std::{fs, io};

#[derive(Drop)]
enum Port {
    Listening(UnixListener),
    Open(UnixStream),
    Shut,
}

// A socket, and what it may be ready for. Both marks may be wrong where they are set, and not where they aren't.
#[derive(Drop)]
pub(crate) struct Socket {
    port: Port,
    token: usize,
    readable: bool,
    writable: bool,
}

// What a read got.
#[derive(Clone, Copy, Debug, PartialEq, Eq)]
pub(crate) enum Got {
    // So many bytes, at least one.
    Bytes(usize),
    // None yet.
    Nothing,
    // The end.
    Over,
    // An error.
    Failed,
}

// Why nothing more can be read.
#[derive(Clone, Copy, Debug, PartialEq, Eq)]
pub(crate) enum Ended {
    Over,
    Failed,
}

impl Socket {
    // Listens at this path, for its owner alone. A socket that was left there is replaced.
    pub(crate) fn listen<R: Files + Net>(
        rt: &R,
        registry: &Registry,
        path: &str,
        token: usize,
    ) -> Result<Socket, StartFault> {
        match bind(rt, registry, path, token) {
            Ok(listener) => Ok(Socket {
                port: Port::Listening(listener),
                token,
                readable: true,
                writable: false,
            }),
            Err(_) => Err(StartFault::Failed),
        }
    }

    // Marks what the socket has become ready for.
    pub(crate) fn mark(&mut self, readable: bool, writable: bool) {
        self.readable = self.readable || readable;
        self.writable = self.writable || writable;
    }

    // Takes the connection, where one waits.
    pub(crate) fn accept(&mut self, registry: &Registry) -> Result<(), FeedFault> {
        let Port::Listening(listener) = &self.port else {
            return Ok(());
        };
        if !self.readable {
            return Ok(());
        }
        match take(listener, registry, self.token) {
            Ok(stream) => {
                self.port = Port::Open(stream);
                self.writable = true;
                Ok(())
            }
            Err(e) if e.kind() == ErrorKind::WouldBlock => {
                self.readable = false;
                Ok(())
            }
            Err(_) => Err(FeedFault::Failed),
        }
    }

    // Reads what there is into the front of the room, and at most so many bytes.
    fn read(&mut self, room: &mut [u8], most: usize) -> Got
        requires some { 1 ≤ most }
        requires room { most ≤ length room.old }
        ensures { ReadsSome most result }
    {
        let Port::Open(stream) = &mut self.port else {
            return Got::Nothing;
        };
        if !self.readable {
            return Got::Nothing;
        }
        match stream.read(&mut room[..most]) {
            Ok(0) => Got::Over,
            Ok(n) => Got::Bytes(n),
            Err(e) if e.kind() == ErrorKind::WouldBlock => {
                self.readable = false;
                Got::Nothing
            }
            Err(e) if e.kind() == ErrorKind::Interrupted => Got::Nothing,
            Err(_) => Got::Failed,
        }
    }

    // Reads what there is, a piece at most.
    pub(crate) fn read_piece(&mut self, room: &mut [u8]) -> Got
        requires room { MAX_PIECE ≤ length room.old }
        ensures { ReadsSome MAX_PIECE result }
    {
        self.read(room, MAX_PIECE as usize)
    }

    // Reads what there is, a piece at most, behind the bytes that are held, through the room.
    pub(crate) fn read_behind(&mut self, held: &mut Row, room: &mut [u8]) -> Result<(), Ended>
        requires held { length held.old ≤ 4107 }
        requires room { MAX_PIECE ≤ length room.old }
    {
        match self.read_piece(room) {
            Got::Bytes(n) => {
                held.append(&room[..n]);
                Ok(())
            }
            Got::Nothing => Ok(()),
            Got::Over => Err(Ended::Over),
            Got::Failed => Err(Ended::Failed),
        }
    }

    // Writes what the socket takes at once of the bytes, and answers how many that are.
    pub(crate) fn write(&mut self, bytes: &[u8]) -> Result<usize, Failed>
        ensures { IfOk result (λ n. n ≤ length bytes.now) }
    {
        let Port::Open(stream) = &mut self.port else {
            return Ok(0);
        };
        if !self.writable {
            return Ok(0);
        }
        match stream.write(bytes) {
            Ok(n) => Ok(n),
            Err(e) if e.kind() == ErrorKind::WouldBlock => {
                self.writable = false;
                Ok(0)
            }
            Err(e) if e.kind() == ErrorKind::Interrupted => Ok(0),
            Err(_) => Err(Failed),
        }
    }

    pub(crate) fn is_shut(&self) -> bool {
        matches!(&self.port, Port::Shut)
    }

    pub(crate) fn shut(&mut self) {
        self.port = Port::Shut;
    }
}

fn bind<R: Files + Net>(
    rt: &R,
    registry: &Registry,
    path: &str,
    token: usize,
) -> io::Result<UnixListener> {
    remove_left_over(rt, path)?;
    let mut listener = UnixListener::bind(rt, path)?;
    fs::set_permissions(rt, path, Permissions::from_mode(0o600))?;
    registry.register(&mut listener, Token(token), Interest::READABLE)?;
    Ok(listener)
}

// Any other file stays, so that binding there fails.
fn remove_left_over<R: Files>(rt: &R, path: &str) -> io::Result<()> {
    match fs::symlink_metadata(rt, path) {
        Ok(found) if found.file_type().is_socket() => fs::remove_file(rt, path),
        _ => Ok(()),
    }
}

fn take(listener: &UnixListener, registry: &Registry, token: usize) -> io::Result<UnixStream> {
    let (mut stream, _) = listener.accept()?;
    registry.register(
        &mut stream,
        Token(token),
        Interest::READABLE | Interest::WRITABLE,
    )?;
    Ok(stream)
}
