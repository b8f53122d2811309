// A key. It has no `Debug` and no `Display`, so that it isn't printed by accident.
#[derive(Clone, Copy, Drop, PartialEq, Eq)]
#[repr(C)]
pub struct Key {
    pub bytes: [u8; 32],
}
