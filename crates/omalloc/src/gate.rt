/// Is told when a caller comes to a pool. The program doesn't call it yet.
pub trait Gate: Sync {
    /// The numbers of the pool, the caller and its command.
    fn inside(&self, pool: u32, caller: u32, command: u32);
}

/// Does nothing.
pub struct NoGate;

impl Gate for NoGate {
    fn inside(&self, _pool: u32, _caller: u32, _command: u32) {}
}
