use crate::port::{AgentsPort, Call, OperatorsPort, PagesPort};
use gate_environment::Wake;

/// The ports of a daemon. Until they are opened, connections wait: nobody is greeted, answered or shown a
/// page.
#[derive(Drop)]
pub struct Ports {
    pub agents: AgentsPort,
    pub operators: OperatorsPort,
    pub pages: PagesPort,
}

impl Ports {
    /// Begins to accept connections, and to serve them.
    pub fn open(&self) {
        self.agents.0.tell(Call::Open);
        self.operators.port.tell(Call::Open);
        self.pages.port.tell(Call::Open);
    }
}

impl Wake for Ports {
    // The operators' worker waits no longer either, where a thread could not be started.
    fn agents(&self) {
        self.agents.0.tell(Call::End);
        self.operators.port.tell(Call::End);
    }

    fn pages(&self) {
        self.pages.port.tell(Call::End);
    }
}
