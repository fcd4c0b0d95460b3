ghost use Rattle.std.specs.Prelude.{◌≡◌, ◌↔◌, ◌⊎◌, ◌≤◌, ℕ, List, length, ◌++◌, ◌∷◌, [], true, false, Some, IfSome, IfNone, IsTrue};
ghost use Rattle.gate_kept.specs.First.{kept_left, input_state, is_peer, GivesKept};

use gate_environment::{Connections, Piece, PieceEnd};
use gate_model::Text;
use gate_streams::{Sink, Source};
use std::io;

/// When a part of what is kept is served.
pub trait Turn {
    // No more of the part is served.
    ghost is_over: { Self → Type 0 };

    /// Whether no more of the part is served.
    fn is_over(&self) -> bool
        ensures { IsTrue result ↔ is_over self.now };

    /// Waits until the part may be served.
    fn begin(&mut self);

    /// The part was served, or the worker serves no more.
    fn finish(&mut self)
        ensures { is_over self.new };
}

/// Bytes that are kept, up to those that were read.
#[derive(Drop)]
pub struct KeptBytes {
    bytes: Text,
    read: usize,
}

impl KeptBytes {
    fn new(bytes: Text) -> KeptBytes
        ensures { kept_left result ≡ bytes }
    {
        KeptBytes { bytes, read: 0 }
    }

    fn left(&self) -> &[u8]
        ensures left { result.now ≡ kept_left self.now }
        ensures within { length result.now ≤ length self.now.bytes }
    {
        self.bytes.bytes().get(self.read..).unwrap_or(&[])
    }
}

impl Source for KeptBytes {
    ghost use Rattle.std.specs.Prelude.{Some, None};
    ghost use Rattle.gate_kept.specs.First.{kept_left};

    ghost state = { λ kept. record { left = Some (kept_left kept); tally = None } };

    fn take_some(&mut self, buf: &mut [u8]) -> io::Result<usize> {
        let size = self.bytes.bytes().len();
        let left = self.left();
        let count = left.len().min(buf.len());
        buf[..count].copy_from_slice(&left[..count]);
        self.read = size - (left.len() - count);
        Ok(count)
    }
}

/// What a worker reads: a piece of what is kept, or of a peer's connection.
#[derive(Drop)]
pub enum FirstInput<I> {
    Kept(KeptBytes),
    Peer(I),
}

/// Where its answers go: those to what is kept go nowhere.
#[derive(Drop)]
pub enum FirstOutput<O> {
    Kept,
    Peer(O),
}

impl<I: Source> Source for FirstInput<I> {
    ghost use Rattle.gate_kept.specs.First.{input_state};

    ghost state = { input_state I.state };

    fn take_some(&mut self, buf: &mut [u8]) -> io::Result<usize> {
        match self {
            FirstInput::Kept(kept) => kept.take_some(buf),
            FirstInput::Peer(peer) => peer.take_some(buf),
        }
    }
}

impl<O: Sink> Sink for FirstOutput<O> {
    ghost use Rattle.gate_kept.specs.First.{output_state};

    ghost state = { output_state O.state };

    fn put(&mut self, bytes: &[u8]) -> io::Result<()> {
        match self {
            FirstOutput::Kept => Ok(()),
            FirstOutput::Peer(peer) => peer.put(bytes),
        }
    }

    fn deliver(&mut self) -> io::Result<()> {
        match self {
            FirstOutput::Kept => Ok(()),
            FirstOutput::Peer(peer) => peer.deliver(),
        }
    }
}

/// What is kept for a worker, in pieces, and when it is served.
#[derive(Drop)]
struct KeptPieces<T> {
    // The next one stands last.
    pieces: Vec<Text>,
    turn: T,
}

impl<T: Turn> KeptPieces<T> {
    // Its turn is over.
    fn finish(&mut self)
        ensures over { T.is_over self.new.turn }
        ensures pieces { self.new.pieces ≡ self.old.pieces }
    {
        if !self.turn.is_over() {
            self.turn.finish();
        }
    }

    // The next piece. None: its turn is over.
    fn next(&mut self) -> Option<Text>
        ensures some { IfSome result (λ bytes.
            self.old.pieces.items ≡ self.new.pieces.items ++ bytes ∷ []) }
        ensures none { IfNone result (T.is_over self.new.turn) }
        ensures all { IfNone result
            (T.is_over self.old.turn ⊎ (self.old.pieces.items ≡ [])) }
    {
        if self.turn.is_over() {
            return None;
        }
        self.turn.begin();
        let next = self.pieces.pop();
        if next.is_none() {
            self.finish();
        }
        next
    }
}

/// The connections of a worker, before which it is given what is kept, in pieces that are each the first
/// and the last of a connection of their own.
#[derive(Drop)]
pub struct KeptFirst<C, T> {
    kept: KeptPieces<T>,
    peers: C,
}

impl<C, T> KeptFirst<C, T> {
    /// Gives these pieces, the last one first, in this turn, and then those of the peers.
    pub fn new(pieces: Vec<Text>, turn: T, peers: C) -> KeptFirst<C, T>
        ensures pieces { result.kept.pieces ≡ pieces }
        ensures turn { result.kept.turn ≡ turn }
        ensures peers { result.peers ≡ peers }
    {
        let kept = KeptPieces { pieces, turn };
        KeptFirst { kept, peers }
    }
}

// A piece of what is kept.
fn kept_piece<I: Source, O: Sink>(bytes: Text) -> Piece<FirstInput<I>, FirstOutput<O>>
    ensures first { result.is_first ≡ true }
    ensures kept { is_peer result.input ≡ false }
    ensures bytes { (input_state I.state result.input).left ≡ Some bytes }
{
    Piece {
        place: 0,
        is_first: true,
        input: FirstInput::Kept(KeptBytes::new(bytes)),
        output: FirstOutput::Kept,
    }
}

// A piece of a peer's connection.
fn peer_piece<I, O>(piece: Piece<I, O>) -> Piece<FirstInput<I>, FirstOutput<O>>
    ensures place { result.place ≡ piece.place }
    ensures first { result.is_first ≡ piece.is_first }
    ensures peer { is_peer result.input ≡ true }
{
    let Piece {
        place,
        is_first,
        input,
        output,
    } = piece;
    Piece {
        place,
        is_first,
        input: FirstInput::Peer(input),
        output: FirstOutput::Peer(output),
    }
}

impl<C: Connections, T: Turn> Connections for KeptFirst<C, T> {
    type In = FirstInput<C::In>;

    type Out = FirstOutput<C::Out>;

    fn next(&mut self) -> Option<Piece<FirstInput<C::In>, FirstOutput<C::Out>>>
        // What is kept comes first, a piece after the other.
        ensures kept { IfSome result (λ piece. GivesKept C.In.state self.old.kept.pieces.items piece.input
            self.new.kept.pieces.items) }

        // A peer's piece comes once its turn is over.
        ensures peers { IfSome result (λ piece. is_peer piece.input ≡ true
            → T.is_over self.new.kept.turn) }
        ensures all { IfSome result (λ piece. is_peer piece.input ≡ true
            → T.is_over self.old.kept.turn ⊎ (self.old.kept.pieces.items ≡ [])) }
    {
        if let Some(bytes) = self.kept.next() {
            return Some(kept_piece(bytes));
        }
        match self.peers.next() {
            Some(piece) => Some(peer_piece(piece)),
            None => None,
        }
    }

    fn part(&mut self, piece: Piece<FirstInput<C::In>, FirstOutput<C::Out>>, end: PieceEnd)
        ensures pieces { self.new.kept.pieces ≡ self.old.kept.pieces }
        ensures turn { self.new.kept.turn ≡ self.old.kept.turn }
    {
        let Piece {
            place,
            is_first,
            input,
            output,
        } = piece;
        if let (FirstInput::Peer(input), FirstOutput::Peer(output)) = (input, output) {
            let piece = Piece {
                place,
                is_first,
                input,
                output,
            };
            self.peers.part(piece, end);
        }
    }

    fn end(&mut self) {
        self.kept.finish();
        self.peers.end();
    }
}
