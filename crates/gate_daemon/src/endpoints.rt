use gate_worker::Endpoint;

/// What the threads of a gateway serve, and their holds.
#[derive(Drop)]
pub struct Endpoints<A, O, P, H> {
    /// Of each agents' worker: clients 1, 2 and so on.
    pub agents: Vec<Endpoint<A, H>>,
    /// Of the operator's worker, who is the last client.
    pub operator: Endpoint<O, H>,
    /// The connections that get the status page.
    pub pages: P,
    /// The applier's hold.
    pub applier: H,
}
