//! New peers, and who gives way to them.

ghost use Rattle.std.specs.Prelude.{◌≡◌, ◌≢◌, ◌≤◌, ◌⊎◌, ◌+◌, length, IfSome, false, true};
ghost use Rattle.gate_turns.specs.Standing.{can_be_served};
ghost use Rattle.gate_ports.specs.Waiting.{in_time, IsSameTime};
ghost use Rattle.gate_ports.specs.Table.{IsOnlyAt};
ghost use Rattle.gate_ports.specs.Room.{IsFirstToGo, can_be_served_at_once, is_ready_at, may_watch};

use crate::accepting::accept;
use crate::peer::Peer;
use crate::peers::{Door, Peers};
use crate::selector::Asked;
use crate::shared::Rules;
use gate_environment::times::ACCEPT_MILLIS;
use gate_turns::{
    Page, Role, Stage, Standing, first_ready, gives_way, longest_owing, longest_parting, slowest,
};
use std::io;
use std::io::ErrorKind;
use std::net::TcpStream;
use std::sync::atomic::Ordering;

// How many connections are accepted at a time where others are to be served beside them. Where none are,
// it is one: the next is left to another worker.
const ACCEPTS: u32 = 8;

// The peer that gives way to one more: an agent that is silent, of the address with the most
// connections; of operators the one that has owed for the longest time; of readers the slowest one, and
// where none is slow, one that has its page.
fn first_to_go(
    role: Role,
    standings: &[Option<Standing>],
    now: u64,
    silence: u64,
    is_ending: bool,
) -> Option<usize>
    ensures { IfSome result (IsFirstToGo role now silence is_ending standings.now) }
{
    match role {
        Role::Agent => gives_way(standings, None),
        Role::Operator => longest_owing(standings, None, is_ending, silence),
        Role::Reader => match slowest(standings, now) {
            Some(place) => Some(place),
            None => longest_parting(standings),
        },
    }
}

impl Peers {
    // Closes the connection of the peer at this place: whether it did. An agent that turns out to have
    // brought a packet stays.
    fn try_let_go(&mut self, place: usize) -> bool
        ensures only { IsOnlyAt place self.old.table.standings.items
            self.new.table.standings.items }
        ensures stays { result ≡ false
            → is_ready_at self.new.table.standings.items place ≡ true }
        ensures time { IsSameTime self.old self.new }
    {
        if let Role::Agent = self.rules.role {
            self.look_again(place);
            let standing = self.table.standing(place);
            if standing.is_some_and(|standing| standing.is_ready) {
                return false;
            }
        }
        self.close(place);
        true
    }

    // Closes the connection of the peer that gives way: whether one does.
    pub(crate) fn let_one_go(&mut self) -> bool
        ensures length { length self.new.table.standings.items
            ≡ length self.old.table.standings.items }
        ensures time { IsSameTime self.old self.new }
    {
        for _ in 0..=self.table.standings.len() {
            let Rules { role, silence, .. } = self.rules;
            match first_to_go(
                role,
                &self.table.standings,
                self.now,
                silence,
                self.is_ending,
            ) {
                Some(place) => {
                    if self.try_let_go(place) {
                        return true;
                    }
                }
                None => return false,
            }
        }
        false
    }

    // Accepts no connection for 100 milliseconds.
    fn rest(&mut self)
        ensures door { self.new.door ≡ Door.Rests (in_time (self.old.now + 100)) }
        ensures table { self.new.table ≡ self.old.table }
        ensures time { IsSameTime self.old self.new }
    {
        let _ = self
            .selector
            .ask(&self.shared.listener.socket, Asked::NoConnections);
        self.door = Door::Rests(self.now.saturating_add(ACCEPT_MILLIS));
    }

    // Watches the listener.
    fn watch(&mut self)
        ensures door { (self.new.door ≡ Door.Open)
            ⊎ (self.new.door ≡ Door.Rests (in_time (self.old.now + 100))) }
        ensures table { self.new.table ≡ self.old.table }
        ensures time { IsSameTime self.old self.new }
    {
        self.door = match self
            .selector
            .ask(&self.shared.listener.socket, Asked::Connections)
        {
            Ok(()) => Door::Open,
            Err(_) => Door::Rests(self.now.saturating_add(ACCEPT_MILLIS)),
        };
    }

    /// Watches the listener where that is due: once the port is open, and after a rest.
    pub(crate) fn go_on_accepting(&mut self, is_open: bool)
        ensures not_yet { may_watch self.old.door is_open self.old.now ≡ false
            → self.new.door ≡ self.old.door }
        ensures watched { may_watch self.old.door is_open self.old.now ≡ true
            → (self.new.door ≡ Door.Open)
            ⊎ (self.new.door ≡ Door.Rests (in_time (self.old.now + 100))) }
        ensures table { self.new.table ≡ self.old.table }
        ensures time { IsSameTime self.old self.new }
    {
        match self.door {
            Door::Shut if is_open => self.watch(),
            Door::Rests(until) if until <= self.now => self.watch(),
            Door::Shut | Door::Rests(_) | Door::Open | Door::Closed => {}
        }
    }

    /// No more connections are accepted.
    pub(crate) fn stop_accepting(&mut self)
        ensures door { self.new.door ≡ Door.Closed }
        ensures table { self.new.table ≡ self.old.table }
        ensures time { IsSameTime self.old self.new }
    {
        if let Door::Open = self.door {
            let _ = self
                .selector
                .ask(&self.shared.listener.socket, Asked::NoConnections);
        }
        self.door = Door::Closed;
    }

    // How a new peer stands: an agent and a reader can be served at once.
    fn first_standing(&mut self, address: u128) -> Standing
        ensures role { result.role ≡ self.old.rules.role }
        ensures since { result.since ≡ self.old.now }
        ensures at_once { can_be_served result ≡ can_be_served_at_once self.old.rules.role }
        ensures address { result.address ≡ address }
        ensures table { self.new.table ≡ self.old.table }
        ensures time { IsSameTime self.old self.new }
    {
        let order = self.next_order();
        Standing {
            role: self.rules.role,
            stage: Stage::Open,
            is_ready: !matches!(self.rules.role, Role::Operator),
            since: self.now,
            order,
            address,
            page: Page {
                text: 0,
                bytes: 0,
                taken: 0,
            },
        }
    }

    // Gives a new peer a place, from which it is reported. One for which there is no memory is let go.
    fn add(&mut self, served: Option<usize>, stream: TcpStream, address: u128) -> io::Result<()>
        ensures length { length self.old.table.standings.items
            ≤ length self.new.table.standings.items }
        ensures time { IsSameTime self.old self.new }
    {
        let standing = self.first_standing(address);
        let room = self.table.take_room(self.alloc);
        let peer = Peer::new(self.alloc, self.rules.role, stream, room);
        let place = match self.table.free_place(served) {
            Ok(place) => place,
            Err(error) => {
                self.table.keep_room(peer.leave());
                return Err(io::Error::from(error));
            }
        };
        if let Err(error) = self.selector.ask(&peer.stream, Asked::Reads(place)) {
            self.table.give_back(place, peer);
            return Err(error);
        }
        self.shared.count.fetch_add(1, Ordering::SeqCst);
        self.expect(&standing);
        self.table.put(place, peer, standing);
        Ok(())
    }

    // Accepts a connection that waits at the listener: whether there may be more. Where as many are open as
    // may be, or the system has no descriptor left, one gives way, and else the port rests.
    fn accept_one(&mut self, served: Option<usize>) -> bool
        ensures length { length self.old.table.standings.items
            ≤ length self.new.table.standings.items }
        ensures time { IsSameTime self.old self.new }
    {
        let is_full = self.shared.count.load(Ordering::SeqCst) >= self.rules.most;
        if is_full && !self.table.is_empty() && !self.let_one_go() {
            self.rest();
            return false;
        }
        match accept(&self.shared.listener.socket) {
            Ok((stream, address)) => {
                let _ = self.add(served, stream, address);
                true
            }
            Err(error) => {
                let is_gone = matches!(
                    error.kind(),
                    ErrorKind::WouldBlock | ErrorKind::Interrupted | ErrorKind::ConnectionAborted
                );
                if !is_gone && !self.let_one_go() {
                    self.rest();
                }
                false
            }
        }
    }

    /// Accepts connections that wait at the listener, as long as it is watched.
    pub(crate) fn accept_some(&mut self, served: Option<usize>)
        ensures length { length self.old.table.standings.items
            ≤ length self.new.table.standings.items }
        ensures shut { self.old.door ≢ Door.Open → self.new.table ≡ self.old.table }
        ensures time { IsSameTime self.old self.new }
    {
        let most = if first_ready(&self.table.standings, None).is_some() {
            ACCEPTS
        } else {
            1
        };
        for _ in 0..most {
            if !matches!(self.door, Door::Open) || !self.accept_one(served) {
                return;
            }
        }
    }
}
