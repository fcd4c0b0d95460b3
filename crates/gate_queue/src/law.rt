ghost use Rattle.gate_queue.specs.Taker.{IsConserved};

use crate::taker::Taker;

/// The law of the queue, for any schedule of threads: what was taken, followed by what the queue
/// holds, is a merge of what was queued for the clients. Nothing is lost, made or out of order.
pub fn conservation(taker: &Taker)
    ensures { IsConserved taker.now }
{
    let _ = &taker.pass;
}
