ghost use Rattle.std.specs.Prelude.{◌≡◌, ◌≤◌, ◌<◌, ℕ, [], List, length, Option, None, IfOk, IfSome, false, true};
ghost use Rattle.std.specs.Option.{option_map};
ghost use Rattle.gate_ports.specs.Table.{IsOnlyAt};
ghost use Rattle.gate_ports.specs.Waiting.{IsFirstReady, IsSameTime};
ghost use Rattle.gate_turns.specs.Turns.{those, least_piece, IsOver};
ghost use Rattle.gate_turns.specs.Pages.{is_slow, kept};
ghost use Rattle.gate_ports.specs.Room.{GiveWay};
ghost use Rattle.gate_ports.specs.Serving.{timeout_of, most_wait, KeepsServed, HandsOutServed, IsServedNext, GoesOnSince, IsNextOf};

use crate::listener::{Listener, ends_listener};
use crate::peers::{Door, Peers, earlier};
use crate::selector::LISTENER;
use crate::served::Served;
use crate::standing::parted;
use crate::texts::Texts;
use gate_environment::PieceEnd;
use gate_turns::{Role, Standing, first_ready, is_over, kept, longest_owing, slowest};
use libc::net::{SHUT_RDWR, shutdown};
use std::io;
use std::io::ErrorKind;
use std::os::fd::AsRawFd;
use std::sync::atomic::Ordering;
use std::time::Clock;

// How many bytes an agent's piece hands out before others are looked at.
const LOOK: usize = 65_536;

/// How many bytes are kept for the peers of a worker that don't take them, in all, while others are served.
const MOST_UNSENT: usize = 134_217_728;

// For how long a reader waits at most until it is looked at who gives way to it.
const ROOM_MILLIS: u64 = 100;

/// The peers of a worker: those that wait, and the one that is served.
#[derive(Drop)]
pub(crate) struct Serving {
    pub(crate) peers: Peers,
    pub(crate) served: Option<Served>,
    texts: Texts,
    // The order of the last peer that was ready at a wait.
    round: u64,
}

// For how long nothing is to be done but what is reported, at most: until one is late, or a rest is over.
fn timeout_of(most: Option<u64>, late_at: Option<u64>, door: Door, now: u64) -> Option<u64>
    ensures { result ≡ timeout_of most late_at door now }
{
    let rests_until = match door {
        Door::Rests(until) => Some(until),
        Door::Shut | Door::Open | Door::Closed => None,
    };
    let until = earlier(late_at, rests_until);
    earlier(most, until.map(|until| until.saturating_sub(now)))
}

// How many bytes a piece hands out before others are looked at.
fn look_after(role: Role) -> usize
    ensures { result ≡ least_piece role }
{
    match role {
        Role::Agent => LOOK,
        Role::Operator | Role::Reader => 1,
    }
}

// For how long is waited for something to happen, where somebody can be served and, of readers, there is room
// for what is kept for one more.
fn most_wait(has_ready: bool, has_room: bool, most: Option<u64>) -> Option<u64>
    ensures { result ≡ most_wait has_ready has_room most }
{
    if !has_ready {
        most
    } else if has_room {
        Some(0)
    } else {
        earlier(most, Some(ROOM_MILLIS))
    }
}

// The place of the peer that is served.
fn place_of(served: &Option<Served>) -> Option<usize>
    ensures { result ≡ option_map (λ served. served.place) served.now }
{
    match served {
        Some(served) => Some(served.place),
        None => None,
    }
}

// Whether the next peer that can be served was ready before the last wait.
fn is_in_round(standings: &[Option<Standing>], round: u64) -> bool
    ensures { result ≡ true → (place : ℕ) × IsFirstReady standings.now place }
{
    match first_ready(standings, None) {
        Some(place) => match standings[place] {
            Some(standing) => standing.order <= round,
            None => false,
        },
        None => false,
    }
}

impl Serving {
    pub(crate) fn new(peers: Peers) -> Serving
        ensures peers { result.peers ≡ peers }
        ensures served { result.served ≡ None }
    {
        let texts = Texts::new(peers.alloc);
        Serving {
            peers,
            served: None,
            texts,
            round: 0,
        }
    }

    // Takes note of what was reported of the peer at this place, and does what can be done for it. For the
    // one that is served that is left to its piece.
    fn note(&mut self, place: usize)
        ensures only { IsOnlyAt place self.old.peers.table.standings.items
            self.new.peers.table.standings.items }
        ensures place { KeepsServed self.old self.new }
        ensures time { IsSameTime self.old.peers self.new.peers }
    {
        if let Some(served) = &mut self.served {
            if served.place == place {
                served.peer.may_read = true;
                served.peer.may_write = true;
                return;
            }
        }
        if place < self.peers.table.peers.len() {
            if let Some(peer) = &mut self.peers.table.peers[place] {
                peer.may_write = true;
            }
        }
        self.peers.look_again(place);
    }

    // Takes note of what was reported: whether a connection waits at the listener.
    fn note_all(&mut self, count: usize) -> bool
        ensures length { length self.new.peers.table.standings.items
            ≡ length self.old.peers.table.standings.items }
        ensures place { KeepsServed self.old self.new }
        ensures time { IsSameTime self.old.peers self.new.peers }
    {
        let mut is_called = false;
        for index in 0..count {
            match self.peers.selector.reported(index) {
                Some(LISTENER) => is_called = true,
                Some(number) => self.note(number as usize),
                None => {}
            }
        }
        is_called
    }

    // Waits until something happens, for this time at most, and does what can be done for the peers.
    fn turn<R: Clock>(&mut self, rt: &R, most: Option<u64>)
        ensures length { length self.old.peers.table.standings.items
            ≤ length self.new.peers.table.standings.items }
        ensures place { KeepsServed self.old self.new }
        ensures rules { self.new.peers.rules ≡ self.old.peers.rules }
        ensures round { self.new.round ≡ self.new.peers.orders }
    {
        let Peers {
            late_at,
            door,
            now,
            ..
        } = &self.peers;
        let timeout = timeout_of(most, *late_at, *door, *now);
        let count = self.peers.selector.wait(timeout);
        self.peers.look_at_clock(rt);
        let is_called = self.note_all(count);
        let place = place_of(&self.served);
        if is_called {
            self.peers.accept_some(place);
        }
        self.peers.let_all_late_go();
        self.round = self.peers.orders;
    }

    // From now on peers have less time.
    fn begin_end(&mut self)
        ensures ending { self.new.peers.is_ending ≡ true }
        ensures table { self.new.peers.table ≡ self.old.peers.table }
        ensures served { self.new.served ≡ self.old.served }
    {
        if !self.peers.is_ending {
            self.peers.is_ending = true;
            self.peers.late_at = Some(self.peers.now);
        }
    }

    // Makes the next peer the one that is served: its place, and whether it is its first piece.
    fn serve_first_ready(&mut self) -> Option<(usize, bool)>
        ensures first { IfSome result
            (λ next. IsFirstReady self.old.peers.table.standings.items next.0) }
        ensures served { IfSome result (λ next. IsServedNext next.0 self.new) }
        ensures rules { self.new.peers.rules ≡ self.old.peers.rules }
    {
        let place = first_ready(&self.peers.table.standings, None)?;
        let (mut peer, standing) = self.peers.table.take(place)?;
        let is_first = peer.owe_answer();
        peer.held.begin_piece();
        self.served = Some(Served {
            place,
            peer,
            standing,
            handed_out: 0,
            since_look: 0,
        });
        Some((place, is_first))
    }

    // Whether one more reader can be served: no more bytes are kept for readers than may be. Where there are
    // more, those that are slow give way, and the slowest first.
    fn makes_room(&mut self) -> bool
        ensures room { result ≡ true → self.old.peers.rules.role ≡ Role.Reader
            → kept self.new.peers.table.standings.items ≤ 134217728 }
        ensures full { result ≡ false
            → (134217728 < kept self.new.peers.table.standings.items)
            × (those (is_slow self.old.peers.now) self.new.peers.table.standings.items ≡ []) }
        ensures gave_way { GiveWay self.old.peers.now
            self.old.peers.table.standings.items self.new.peers.table.standings.items }
        ensures served { self.new.served ≡ self.old.served }
        ensures time { IsSameTime self.old.peers self.new.peers }
    {
        if self.peers.rules.role != Role::Reader {
            return true;
        }
        let now = self.peers.now;
        while kept(&self.peers.table.standings) > MOST_UNSENT as u128 {
            match slowest(&self.peers.table.standings, now) {
                Some(place) => self.peers.close(place),
                None => return false,
            }
        }
        true
    }

    /// Makes the next peer the one that is served: its place, and whether it is its first piece. It waits
    /// for this many milliseconds at most, or else until something happens. Peers that were ready at the last
    /// wait are served before the next one. Before the port is open, nobody is accepted, and while too many
    /// bytes are kept for readers, none is served.
    pub(crate) fn next<R: Clock>(
        &mut self,
        rt: &R,
        is_open: bool,
        is_ending: bool,
        most: Option<u64>,
    ) -> Option<(usize, bool)>
        ensures first { IfSome result (λ next. (standings : List (Option Standing))
            × IsNextOf self.new.peers.rules.role standings next.0) }
        ensures served { IfSome result (λ next. IsServedNext next.0 self.new) }
    {
        if is_ending {
            self.begin_end();
        }
        self.texts.forget_unread();
        self.peers.go_on_accepting(is_open);
        let has_room = self.makes_room();
        if is_ending || !has_room || !is_in_round(&self.peers.table.standings, self.round) {
            let has_ready = first_ready(&self.peers.table.standings, None).is_some();
            self.turn(rt, most_wait(has_ready, has_room, most));
        }
        if self.makes_room() {
            self.serve_first_ready()
        } else {
            None
        }
    }

    // Whether the piece that is served ends here, since others can be served.
    fn is_over<R: Clock>(&mut self, rt: &R) -> bool
        ensures over { result ≡ true → IfSome self.old.served (λ served.
            IsOver self.old.peers.rules.role served.handed_out true) }
        ensures goes_on { result ≡ false → IfSome self.old.served
            (GoesOnSince self.old.peers.rules.role self.new) }
        ensures place { KeepsServed self.old self.new }
        ensures rules { self.new.peers.rules ≡ self.old.peers.rules }
    {
        let role = self.peers.rules.role;
        let Some(served) = &mut self.served else {
            return false;
        };
        if served.since_look < look_after(role) {
            return false;
        }
        served.since_look = 0;
        let handed_out = served.handed_out;
        self.turn(rt, Some(0));
        is_over(
            role,
            handed_out,
            first_ready(&self.peers.table.standings, None).is_some(),
        )
    }

    /// Moves packets or lines of the peer that is served into the buffer: how many bytes. 0 at the end of
    /// its piece, which is also after 64 lines of an operator.
    pub(crate) fn hand_out<R: Clock>(
        &mut self,
        rt: &R,
        buf: &mut [u8],
        is_ending: bool,
    ) -> io::Result<usize>
        ensures length { length buf.new ≡ length buf.old }
        ensures bound { IfOk result (λ count. count ≤ length buf.new) }
        ensures handed { IfOk result (λ count. HandsOutServed self.old count buf.new self.new) }
    {
        if self.is_over(rt) {
            return Ok(0);
        }
        if is_ending && self.peers.rules.role == Role::Agent {
            return Err(io::Error::from(ErrorKind::ConnectionAborted));
        }
        let Some(mut served) = self.served.take() else {
            return Err(io::Error::from(ErrorKind::NotConnected));
        };
        let handed = served.hand_out(buf, &mut self.peers.scratch);
        self.served = Some(served);
        handed
    }

    // How many bytes are kept for each of the peers that wait.
    fn unsent(&self) -> usize {
        let mut sum = 0usize;
        for peer in &self.peers.table.peers {
            if let Some(peer) = peer {
                sum = sum.saturating_add(peer.unsent.own_len());
            }
        }
        sum
    }

    // Closes connections of peers that don't take what was written to them, until what is kept is no more
    // than it may be, or nobody else owes anything.
    fn limit_unsent(&mut self, own: usize)
        ensures length { length self.new.peers.table.standings.items
            ≡ length self.old.peers.table.standings.items }
        ensures served { self.new.served ≡ self.old.served }
    {
        for _ in 0..self.peers.table.standings.len() {
            if self.unsent().saturating_add(own) <= MOST_UNSENT {
                return;
            }
            let (silence, is_ending) = (self.peers.rules.silence, self.peers.is_ending);
            match longest_owing(&self.peers.table.standings, None, is_ending, silence) {
                Some(place) => self.peers.close(place),
                None => return,
            }
        }
    }

    /// Sends these bytes to the peer that is served. Those that it doesn't take at once are kept.
    pub(crate) fn put(&mut self, bytes: &[u8]) -> io::Result<()>
        ensures place { KeepsServed self.old self.new }
    {
        let Some(mut served) = self.served.take() else {
            return Err(io::Error::from(ErrorKind::NotConnected));
        };
        let sent = served.peer.put(bytes, &mut self.texts);
        let own = served.peer.unsent.own_len();
        self.served = Some(served);
        if own > 0 {
            self.limit_unsent(own);
        }
        sent
    }

    /// The peer that is served isn't any more. Where its connection goes on, it is served again after those
    /// that can be served now; else an agent is gone, and the others part, once they took all.
    pub(crate) fn part<R: Clock>(&mut self, rt: &R, is_first: bool, end: PieceEnd)
        ensures { self.new.served ≡ None }
    {
        let Some(served) = self.served.take() else {
            return;
        };
        self.peers.look_at_clock(rt);
        let Served {
            place,
            peer,
            standing,
            ..
        } = served;
        let is_gone = matches!((standing.role, end), (Role::Agent, PieceEnd::Over));
        if is_gone || place >= self.peers.table.standings.len() {
            self.peers.leave(place, peer);
            return;
        }
        let is_sent = peer.unsent.is_empty();
        let standing = parted(standing, is_first, end, is_sent, self.peers.now);
        self.peers.table.put(place, peer, standing);
        self.peers.go_on(place);
    }

    // Lets go of the peer at this place: once it took what was written to it where that is the last, and
    // else of an operator too, whose connection then ends by a reset, since it may have sent one more line;
    // of the others at once.
    fn end_at(&mut self, place: usize)
        ensures only { IsOnlyAt place self.old.peers.table.standings.items
            self.new.peers.table.standings.items }
        ensures served { self.new.served ≡ self.old.served }
    {
        if self.peers.rules.role != Role::Agent {
            self.peers.look_again(place);
        }
        let Some((mut peer, standing)) = self.peers.table.take(place) else {
            return;
        };
        match peer.stop(standing, self.peers.now) {
            Some(last) => {
                self.peers.table.put(place, peer, last);
                self.peers.go_on(place);
            }
            None => self.peers.leave(place, peer),
        }
    }

    // The peer that is served isn't any more, and waits with the others.
    fn take_back(&mut self)
        ensures served { self.new.served ≡ None }
    {
        if let Some(served) = self.served.take() {
            let Served {
                place,
                peer,
                standing,
                ..
            } = served;
            if place < self.peers.table.standings.len() {
                self.peers.table.put(place, peer, standing);
            }
        }
    }

    // No more connections are accepted. The last worker ends the listener, so that peers are refused at
    // once. A listener that is lent doesn't end: peers wait there for the next daemon.
    fn stop_accepting(&mut self)
        ensures table { self.new.peers.table ≡ self.old.peers.table }
        ensures door { self.new.peers.door ≡ Door.Closed }
        ensures served { self.new.served ≡ self.old.served }
    {
        self.peers.stop_accepting();
        let shared = &self.peers.shared;
        let left = shared
            .workers
            .fetch_sub(1, Ordering::SeqCst)
            .saturating_sub(1);
        let Listener { socket, owner } = &shared.listener;
        if ends_listener(*owner, left) {
            shutdown(socket.as_raw_fd(), SHUT_RDWR);
        }
    }

    /// Lets go of all peers: of agents at once, and of readers that wait for a page; of the others once they
    /// took what was written to them, or are late. No more are accepted.
    pub(crate) fn end<R: Clock>(&mut self, rt: &R)
        ensures { self.new.served ≡ None }
    {
        self.take_back();
        self.stop_accepting();
        self.begin_end();
        self.peers.look_at_clock(rt);
        for place in 0..self.peers.table.standings.len() {
            self.end_at(place);
        }
        for _ in 0..u64::MAX {
            if self.peers.table.is_empty() {
                break;
            }
            self.turn(rt, None);
        }
        self.served = None;
    }
}
