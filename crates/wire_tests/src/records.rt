// The records that the tests start from, byte by byte.
#[derive(Clone, Copy, Drop)]
pub struct Case<'a> {
    pub name: &'a str,
    pub bytes: &'a [u8],
}

pub fn from_air() -> [Case<'static>; 5] {
    [
        Case {
            name: "message",
            bytes: b"\x01\x01\x02\x07\x02hi0123456789abcdef\x00\x05ABCDEFGHIJKLMNOPQRSTUVWXYZ012345",
        },
        Case {
            name: "message without a text",
            bytes: b"\x01\x00\x01\x3f\x000123456789abcdef\x00\x00\x00\x00\x00\x00\x00\x00\x00\x00\x00\x00\x00\x00\x00\x00\x00\x00\x00\x00\x00\x00\x00\x00\x00\x00\x00\x00\x00\x00\x00\x00\x00\x00",
        },
        Case {
            name: "message, no key, its bytes not zero",
            bytes: b"\x01\x00\x01\x3f\x03tea0123456789abcdef\x00\x00ABCDEFGHIJKLMNOPQRSTUVWXYZ012345",
        },
        Case {
            name: "key",
            bytes: b"\x02\x01\x02ABCDEFGHIJKLMNOPQRSTUVWXYZ012345",
        },
        Case {
            name: "tick on the air",
            bytes: b"\x03\x00\x00\x00\x00\x00\x00\x00\x2a",
        },
    ]
}

pub fn tick() -> Case<'static> {
    Case {
        name: "tick",
        bytes: b"\x03\x01\x02\x03\x04\x05\x06\x07\x08",
    }
}

pub fn delivery() -> Case<'static> {
    Case {
        name: "delivery",
        bytes: b"\x10\x01\x02\x07\x02hi",
    }
}

pub fn settings() -> [Case<'static>; 2] {
    [
        Case {
            name: "settings",
            bytes: b"\x00\x00\x00\x00\x65\x00\x00\x01\x00\x3c\x02\x00\x05\x03\xe8ABCDEFGHIJKLMNOPQRSTUVWXYZ012345",
        },
        Case {
            name: "settings out of range",
            bytes: b"\x00\x00\x00\x00\x65\x00\x00\x01\x00\x00\x02\x00\x05\x03\xe8ABCDEFGHIJKLMNOPQRSTUVWXYZ012345",
        },
    ]
}

// A message without a text, of this interval and index, and the key of interval 5.
pub fn message(interval: u16, index: u8) -> [u8; 55] {
    let mut bytes =
        *b"\x01\x00\x00\x00\x000123456789abcdef\x00\x05ABCDEFGHIJKLMNOPQRSTUVWXYZ012345";
    bytes[1..3].copy_from_slice(&interval.to_be_bytes());
    bytes[3] = index;
    bytes
}
