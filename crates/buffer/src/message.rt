// A buffered message.
ghost use Rattle.std.specs.Prelude.{◌≡◌, ◌≤◌, length};

// Its numbers.
#[derive(Clone, Copy, Drop)]
#[repr(C)]
pub struct Numbers {
    pub interval: u16,
    pub index: u8,
    pub len: u8,
}

// The text is the first `len` bytes of `text`.
#[derive(Clone, Copy, Drop)]
#[repr(C)]
pub struct Buffered {
    pub numbers: Numbers,
    pub text: [u8; 200],
    pub tag: [u8; 16],
    ghost short: { numbers.len ≤ 200 },
    ghost sized: { length text ≡ 200 },
    ghost tagged: { length tag ≡ 16 },
}
