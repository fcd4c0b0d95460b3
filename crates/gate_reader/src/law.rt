ghost use Rattle.std.specs.Prelude.{ℕ};
ghost use Rattle.gate_reader.specs.Session.{client_view};
ghost use Rattle.gate_reader.specs.Lines.{operator_view};
ghost use Rattle.gate_reader.specs.Joining.{ServedPacketsJoin, PacketPiecesJoin, FirstPacketPieceJoins, FirstPacketPieceIsSession, ServedLinesJoin, LinePiecesJoin, LinePieceIsSession};

use gate_core::{Operator, Submit};
use gate_environment::Clock;

/// What holds of an agent's connection that is served in pieces, each of which stops at its end
/// (`End`) until the last: together they are one piece, and with the greeting one session. So it is
/// for any number of pieces. Own rules.
pub fn packets_join<C: Clock, S: Submit>()
    ensures served { (number age : ℕ) → ServedPacketsJoin (client_view S.Submit number) age }
    ensures pieces { (number age : ℕ) →
        PacketPiecesJoin (client_view S.Submit number) C.state age }
    ensures first { (number age : ℕ) →
        FirstPacketPieceJoins (client_view S.Submit number) C.state age }
    ensures session { (number age : ℕ) →
        FirstPacketPieceIsSession (client_view S.Submit number) C.state age }
{}

/// What holds of an operator's connection that is served in pieces, each of which stops at its end
/// (`End`) until the last: together they are one piece, and so one session. So it is for any number
/// of pieces. Own rules.
pub fn lines_join<C: Clock, O: Operator>()
    ensures served { (number : ℕ) →
        ServedLinesJoin (operator_view O.Submit O.Operator.own number) }
    ensures pieces { (number : ℕ) →
        LinePiecesJoin (operator_view O.Submit O.Operator.own number) C.state }
    ensures session { (number : ℕ) →
        LinePieceIsSession (operator_view O.Submit O.Operator.own number) C.state }
{}
