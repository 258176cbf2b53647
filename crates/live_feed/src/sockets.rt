// All sockets of a live desk, which are looked at in turn.
ghost use Rattle.std.specs.Prelude.{◌*◌, ◌≤◌, ◌<◌, length, IfErr};
ghost use Rattle.desk_laws.specs.declared.limits.TheConstants.{MAX_GUESTS, MAX_PIECE};
ghost use Rattle.live_feed.specs.Given.{GivesFit};

use crate::guest::Guest;
use crate::socket::Socket;
use crate::user::User;
use desk_laws::{GuestSetup, MAX_GUESTS, Setup};
use io_ports::{FeedFault, Next, SendFailed, StartFault};
use mio::{Events, Poll, Registry, Token};
use std::alloc::Global;
use std::fs::Files;
use std::net::Net;
use std::str;
use std::time::Duration;

// How many milliseconds a round waits for something to read or to write.
const WAIT: u64 = 100;

// More than there are sockets.
const EVENTS: usize = 64;

// The sockets of the guests and of the user, and whose turn it is: two for each guest, and then the user's.
#[derive(Drop)]
pub(crate) struct Sockets {
    poll: Poll,
    events: Events,
    guests: Vec<Guest>,
    user: User,
    turn: usize,
}

impl Sockets {
    // Listens in this folder for the guests of this setup and for the user.
    pub(crate) fn open<R: Files + Net>(
        rt: &R,
        alloc: Global,
        dir: &str,
        setup: &Setup,
    ) -> Result<Sockets, StartFault>
        requires { length setup.now.guests ≤ MAX_GUESTS }
    {
        let Ok(poll) = Poll::new(rt) else {
            return Err(StartFault::Failed);
        };
        let Ok(events) = Events::with_capacity(alloc, EVENTS) else {
            return Err(StartFault::NoMemory);
        };
        let guests = open_guests(rt, alloc, poll.registry(), dir, setup)?;
        let user = open_user(rt, alloc, poll.registry(), dir, 2 * guests.len())?;
        Ok(Sockets {
            poll,
            events,
            guests,
            user,
            turn: 0,
        })
    }

    // Gives what the next socket has. Where none has anything, waits for a while and looks once more.
    pub(crate) fn give(
        &mut self,
        guests: u32,
        pages: u32,
        room: &mut [u8],
    ) -> Result<Option<Next>, FeedFault>
        requires guests { guests ≤ MAX_GUESTS }
        requires room { MAX_PIECE ≤ length room.old }
        ensures fits { GivesFit guests pages result }
    {
        let found = self.look(self.turn, guests, pages, room)?;
        if found.is_some() {
            return Ok(found);
        }
        let found = self.look_after(Duration::ZERO, guests, pages, room)?;
        if found.is_some() {
            return Ok(found);
        }
        self.look_after(Duration::from_millis(WAIT), guests, pages, room)
    }

    // Sends these bytes to a guest.
    pub(crate) fn send(&mut self, guest: usize, bytes: &[u8]) -> Result<(), SendFailed>
        requires some { 0 < length bytes.now }
        ensures part { IfErr result (λ e. e.sent < length bytes.now) }
    {
        match self.guests.get_mut(guest) {
            Some(guest) => guest.send(bytes),
            None => Err(SendFailed { sent: 0 }),
        }
    }

    // Waits at most so long until a socket is ready, writes what waits, and looks at each socket once.
    fn look_after(
        &mut self,
        wait: Duration,
        guests: u32,
        pages: u32,
        room: &mut [u8],
    ) -> Result<Option<Next>, FeedFault>
        requires guests { guests ≤ MAX_GUESTS }
        requires room { MAX_PIECE ≤ length room.old }
        ensures fits { GivesFit guests pages result }
    {
        if self.poll.poll(&mut self.events, Some(wait)).is_err() {
            return Err(FeedFault::Failed);
        }
        self.mark_ready();
        self.flush();
        self.look(0, guests, pages, room)
    }

    // Marks the sockets that have become ready.
    fn mark_ready(&mut self) {
        for event in self.events.iter() {
            let Token(token) = event.token();
            let readable = event.is_readable() || event.is_read_closed() || event.is_error();
            let writable = event.is_writable() || event.is_write_closed() || event.is_error();
            match self.guests.get_mut(token / 2) {
                Some(guest) => guest.mark(token % 2 == 0, readable, writable),
                None => self.user.mark(readable, writable),
            }
        }
    }

    fn flush(&mut self) {
        for guest in self.guests.iter_mut() {
            guest.flush();
        }
    }

    // Looks at the sockets from this place on until one gives an item. The turn then is the next one's.
    fn look(
        &mut self,
        from: usize,
        guests: u32,
        pages: u32,
        room: &mut [u8],
    ) -> Result<Option<Next>, FeedFault>
        requires guests { guests ≤ MAX_GUESTS }
        requires room { MAX_PIECE ≤ length room.old }
        ensures fits { GivesFit guests pages result }
    {
        for place in from..2 * guests as usize + 1 {
            let found = self.look_at(place, guests, pages, room)?;
            if found.is_some() {
                self.turn = place + 1;
                return Ok(found);
            }
        }
        Ok(None)
    }

    fn look_at(
        &mut self,
        place: usize,
        guests: u32,
        pages: u32,
        room: &mut [u8],
    ) -> Result<Option<Next>, FeedFault>
        requires guests { guests ≤ MAX_GUESTS }
        requires room { MAX_PIECE ≤ length room.old }
        ensures fits { GivesFit guests pages result }
    {
        let registry = self.poll.registry();
        if place / 2 >= guests as usize {
            return self.user.give(guests, pages, registry, room);
        }
        let me = (place / 2) as u32;
        match self.guests.get_mut(place / 2) {
            Some(guest) if place % 2 == 0 => guest.give_piece(me, registry, room),
            Some(guest) => guest.give_change(me, pages, registry, room),
            None => Ok(None),
        }
    }
}

// Listens for each guest of the setup.
fn open_guests<R: Files + Net>(
    rt: &R,
    alloc: Global,
    registry: &Registry,
    dir: &str,
    setup: &Setup,
) -> Result<Vec<Guest>, StartFault>
    requires { length setup.now.guests ≤ MAX_GUESTS }
{
    let mut opened = Vec::new(alloc);
    for (i, guest) in setup.guests.items().iter().enumerate() {
        let guest = open_guest(rt, alloc, registry, dir, guest, 2 * i)?;
        if opened.push(guest).is_err() {
            return Err(StartFault::NoMemory);
        }
    }
    Ok(opened)
}

// Listens for a guest, under this token and the next.
fn open_guest<R: Files + Net>(
    rt: &R,
    alloc: Global,
    registry: &Registry,
    dir: &str,
    guest: &GuestSetup,
    token: usize,
) -> Result<Guest, StartFault>
    requires { token < 2 * MAX_GUESTS }
{
    let Ok(name) = str::from_utf8(guest.name.bytes()) else {
        return Err(StartFault::Failed);
    };
    let gui = open_socket(rt, alloc, registry, dir, name, ".gui", token)?;
    let pages = open_socket(rt, alloc, registry, dir, name, ".pages", token + 1)?;
    match Guest::new(alloc, gui, pages) {
        Ok(guest) => Ok(guest),
        Err(_) => Err(StartFault::NoMemory),
    }
}

fn open_user<R: Files + Net>(
    rt: &R,
    alloc: Global,
    registry: &Registry,
    dir: &str,
    token: usize,
) -> Result<User, StartFault> {
    let socket = open_socket(rt, alloc, registry, dir, "user", "", token)?;
    match User::new(alloc, socket) {
        Ok(user) => Ok(user),
        Err(_) => Err(StartFault::NoMemory),
    }
}

fn open_socket<R: Files + Net>(
    rt: &R,
    alloc: Global,
    registry: &Registry,
    dir: &str,
    name: &str,
    ending: &str,
    token: usize,
) -> Result<Socket, StartFault> {
    match format!(in alloc; "{dir}/{name}{ending}") {
        Ok(path) => Socket::listen(rt, registry, path.as_str(), token),
        Err(_) => Err(StartFault::NoMemory),
    }
}
