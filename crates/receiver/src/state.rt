// The state of a receiver, of fixed size.
use buffer::room::Buffer;
use keychain::key::Key;
use timing::parameters::Parameters;

// clock: the last tick told; newest: the newest interval whose key it has, and that key.
#[derive(Clone, Copy, Drop)]
#[repr(C)]
pub struct Receiver {
    pub parameters: Parameters,
    pub clock: u64,
    pub newest: u16,
    pub key: Key,
    pub buffer: Buffer,
}
