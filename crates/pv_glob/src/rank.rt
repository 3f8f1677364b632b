//! The order of bytes in which the first shared path is chosen.
ghost use Rattle.std.specs.Prelude.{◌≡◌, ℕ, ◌<◌, ◌≤◌, ◌+◌};
ghost use Rattle.pv_glob.specs.Words.{rank};

/// Returns the index of a byte in the order that the search uses.
pub(crate) fn rank(byte: u8) -> u16
    ensures { result ≡ rank byte }
{
    let byte = u16::from(byte);
    match byte {
        97..=122 => byte - 97,
        48..=57 => byte - 48 + 26,
        65..=90 => byte - 65 + 36,
        _ => byte + 62,
    }
}

/// Returns the byte with this index in the order that the search uses.
pub(crate) fn byte_at(place: u16) -> u8
    requires byte { (b : ℕ) × (b < 256) × (rank b ≡ place) }
    ensures { rank result ≡ place }
{
    let byte = match place {
        0..=25 => place + 97,
        26..=35 => place - 26 + 48,
        36..=61 => place - 36 + 65,
        _ => place - 62,
    };
    byte as u8
}

/// Returns the least index, in the order that the search uses, of the bytes of a range.
pub(crate) fn first_rank(low: u8, high: u8) -> u16
    requires { low ≤ high }
    ensures found { (b : ℕ) × (low ≤ b) × (b ≤ high) × (rank b ≡ result) }
    ensures first { (b : ℕ) → low ≤ b → b ≤ high → result ≤ rank b }
{
    if low <= b'z' && b'a' <= high {
        rank(low.max(b'a'))
    } else if low <= b'9' && b'0' <= high {
        rank(low.max(b'0'))
    } else if low <= b'Z' && b'A' <= high {
        rank(low.max(b'A'))
    } else {
        rank(low)
    }
}
