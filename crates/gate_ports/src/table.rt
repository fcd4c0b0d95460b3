ghost use Rattle.std.specs.Prelude.{◌≡◌, ◌≢◌, ◌<◌, ◌≤◌, ◌⊎◌, ◌↔◌, ◌++◌, ◌∷◌, [], length, vec_len, slice_get, slice_set, Some, None, IfOk, IfSome, OnOk, OnErr, IsTrue, All, is_none, true};
ghost use Rattle.gate_ports.specs.Table.{HasPlace, IsOnlyAt};

use crate::peer::Peer;
use gate_turns::Standing;
use std::alloc::{AllocError, Global};

// How many bytes an operator may have at its place: what is kept of a line, and what one read brings.
const ROOM: usize = 24_577;

/// The peers of a worker that wait, by their places, and how each of them stands.
#[derive(Drop)]
pub(crate) struct Table {
    pub(crate) peers: Vec<Option<Peer>>,
    pub(crate) standings: Vec<Option<Standing>>,
    // Places that may be free.
    free: Vec<usize>,
    // The rooms of operators that nobody has.
    rooms: Vec<Vec<u8>>,
    ghost same: { vec_len peers ≡ vec_len standings },
}

// Rooms for so many operators.
fn new_rooms(alloc: Global, count: usize) -> Result<Vec<Vec<u8>>, AllocError>
    ensures { IfOk result (λ rooms. vec_len rooms ≡ count) }
{
    let mut rooms = Vec::with_capacity(alloc, count)?;
    for _ in 0..count {
        rooms.push_reserved(Vec::with_capacity(alloc, ROOM)?);
    }
    Ok(rooms)
}

impl Table {
    /// Nobody waits yet. Of so many peers there are the places and rooms from the beginning, so that they are
    /// served also once memory has run out.
    pub(crate) fn new(alloc: Global, count: usize) -> Result<Table, AllocError>
        ensures { IfOk result (λ table. table.standings.items ≡ []) }
    {
        let standings = Vec::with_capacity(alloc, count)?;
        let free = Vec::with_capacity(alloc, count)?;
        let rooms = new_rooms(alloc, count)?;
        let peers = Vec::with_capacity(alloc, count)?;
        Ok(Table {
            peers,
            standings,
            free,
            rooms,
        })
    }

    /// A room for a new peer, or none where there is none any more: then it takes memory as it needs it.
    pub(crate) fn take_room(&mut self, alloc: Global) -> Vec<u8>
        ensures room { result.items ≡ [] }
        ensures standings { self.new.standings.items ≡ self.old.standings.items }
    {
        match self.rooms.pop() {
            Some(mut room) => {
                room.clear();
                room
            }
            None => Vec::new(alloc),
        }
    }

    /// Takes a room back, for the next peer.
    pub(crate) fn keep_room(&mut self, room: Vec<u8>)
        ensures standings { self.new.standings.items ≡ self.old.standings.items }
    {
        if self.rooms.len() < self.rooms.capacity() && room.capacity() >= ROOM {
            self.rooms.push_reserved(room);
        }
    }

    // One more place, which is free.
    fn grow(&mut self) -> Result<usize, AllocError>
        ensures place { IfOk result (λ place. place ≡ length self.old.standings.items) }
        ensures ok { OnOk result (self.new.standings.items
            ≡ self.old.standings.items ++ None ∷ []) }
        ensures err { OnErr result (self.new.standings.items ≡ self.old.standings.items) }
    {
        let place = self.standings.len();
        self.peers.reserve(1)?;
        self.standings.reserve(1)?;
        self.peers.push_reserved(None);
        self.standings.push_reserved(None);
        Ok(place)
    }

    /// A place that is free, and isn't the one of the peer that is served.
    pub(crate) fn free_place(&mut self, served: Option<usize>) -> Result<usize, AllocError>
        ensures place { IfOk result (HasPlace self.old.standings.items self.new.standings.items) }
        ensures not_served { IfOk result (λ place.
            (served ≢ Some place) ⊎ (place ≡ length self.old.standings.items)) }
        ensures err { OnErr result (self.new.standings.items ≡ self.old.standings.items) }
    {
        while let Some(place) = self.free.pop() {
            if place < self.standings.len()
                && self.standings[place].is_none()
                && served != Some(place)
            {
                return Ok(place);
            }
        }
        self.grow()
    }

    /// Puts the peer at this place, which becomes free before.
    pub(crate) fn put(&mut self, place: usize, peer: Peer, standing: Standing)
        requires { place < length self.old.standings.items }
        ensures put { self.new.standings.items
            ≡ slice_set self.old.standings.items place (Some standing) }
        ensures stands { slice_get self.new.standings.items place ≡ Some (Some standing) }
        ensures only { IsOnlyAt place self.old.standings.items self.new.standings.items }
    {
        self.peers[place] = Some(peer);
        self.standings[place] = Some(standing);
    }

    /// Takes the peer at this place out. The place stays its own.
    pub(crate) fn take(&mut self, place: usize) -> Option<(Peer, Standing)>
        ensures only { IsOnlyAt place self.old.standings.items self.new.standings.items }
        ensures within { IfSome result (λ _. place < length self.new.standings.items) }
    {
        if place >= self.standings.len() {
            return None;
        }
        let standing = self.standings[place].take()?;
        let peer = self.peers[place].take()?;
        Some((peer, standing))
    }

    /// Frees a place: whether somebody had it.
    pub(crate) fn remove(&mut self, place: usize) -> bool
        ensures { self.new.standings.items ≡ slice_set self.old.standings.items place None }
    {
        if place >= self.standings.len() {
            return false;
        }
        let had_peer = self.standings[place].is_some();
        if let Some(peer) = self.peers[place].take() {
            self.keep_room(peer.leave());
        }
        self.standings[place] = None;
        self.leave(place);
        had_peer
    }

    /// The place may be used again, and the room of the peer that had it, which goes.
    pub(crate) fn give_back(&mut self, place: usize, peer: Peer)
        ensures standings { self.new.standings.items ≡ self.old.standings.items }
    {
        self.keep_room(peer.leave());
        self.leave(place);
    }

    // The place may be used again. Where memory is missing for that, it isn't.
    fn leave(&mut self, place: usize)
        ensures standings { self.new.standings.items ≡ self.old.standings.items }
    {
        let _ = self.free.push(place);
    }

    /// How the peer at this place stands.
    pub(crate) fn standing(&self, place: usize) -> Option<Standing>
        ensures within { place < length self.now.standings.items
            → slice_get self.now.standings.items place ≡ Some result }
        ensures beyond { length self.now.standings.items ≤ place → result ≡ None }
    {
        if place < self.standings.len() {
            self.standings[place]
        } else {
            None
        }
    }

    /// Whether nobody waits.
    pub(crate) fn is_empty(&self) -> bool
        ensures { IsTrue result
            ↔ All (λ standing. is_none standing ≡ true) self.now.standings.items }
    {
        self.standings.iter().all(|standing| standing.is_none())
    }
}
