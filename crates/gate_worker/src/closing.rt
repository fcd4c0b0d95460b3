ghost use Rattle.std.specs.Prelude.{◌≡◌, IfSome};

use crate::shared::{Closable, Shared};
use gate_environment::{Wake, Watch, pause};
use gate_queue::{CloseFault, Closer, Gate, Notice};
use std::alloc::Global;
use std::sync::Wait;
use std::time::Clock;

// Closes the gate where nobody has, at the clock's moment: a notice of its close. None is out of memory.
fn try_close<K: Watch>(alloc: Global, gate: &Gate, clock: &K, closer: &mut Closer) -> Option<Notice>
    requires { closer.old.cell ≡ gate.now.cell }
    ensures notice { IfSome result (λ notice. notice.cell ≡ gate.now.cell) }
    ensures cell { closer.new.cell ≡ closer.old.cell }
{
    match closer.close(alloc, gate, clock.read()) {
        Ok(notice) => Some(notice),
        Err(CloseFault::AlreadyClosing(_)) => closer.notice(),
        Err(CloseFault::OutOfMemory) => None,
    }
}

/// Closes the gate where nobody has, at the clock's moment, and returns a notice of the close. A close
/// for which memory is missing is tried again, until it is done. Own rule.
pub fn close_gate<R: Wait + Clock, K: Watch, W>(closable: &Closable<'_, '_, R, K, W>) -> Notice
    ensures { result.cell ≡ closable.now.shared.now.gate.now.cell }
{
    let Shared {
        rt,
        alloc,
        gate,
        clock,
        ..
    } = *closable.shared;
    let mut closer = closable.closer.another();
    for _ in rt.forever() {
        if let Some(notice) = try_close(alloc, gate, clock, &mut closer) {
            return notice;
        }
        pause(rt);
    }
    unreachable!()
}

// Closes the gate where nobody has, and wakes the agents' workers.
pub(crate) fn close_and_wake<R: Wait + Clock, K: Watch, W: Wake>(
    closable: &Closable<'_, '_, R, K, W>,
)
    ensures { W.has_woken_agents closable.now.shared.now.wake.now }
{
    let notice = close_gate(closable);
    wake_agents(closable.shared.wake, &notice);
}

// Wakes the agents' workers. Woken before the close, they would end while agents still come.
fn wake_agents<W: Wake>(wake: &W, _closing: &Notice)
    ensures { W.has_woken_agents wake.now }
{
    wake.agents();
}
