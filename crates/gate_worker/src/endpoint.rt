/// A worker's connections, and its hold.
#[derive(Drop)]
pub struct Endpoint<C, H> {
    pub connections: C,
    pub hold: H,
}
