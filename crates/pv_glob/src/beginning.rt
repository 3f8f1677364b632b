//! How a string began that an automaton reads: only what decides whether the string can be a name.
ghost use Rattle.std.specs.Prelude.{◌≡◌, ◌<◌, ◌≤◌};
ghost use Rattle.pv_path.specs.Names.{is_name_byte};
ghost use Rattle.pv_glob.specs.Pairs.{beginning_after, beginning_of, code_of, is_nothing, may_end, may_follow};

/// How a string began that an automaton reads: only what decides whether the string can be a name that is not a staging
/// name.
#[derive(Clone, Copy, PartialEq, Eq)]
pub enum Beginning {
    /// No byte came yet.
    Nothing,
    /// `.`
    Dot,
    /// `..`
    TwoDots,
    /// `.#`
    DotHash,
    /// `.#t`
    DotHashT,
    /// `.#tf`
    DotHashTf,
    /// Any other bytes, after which every byte of a name may follow.
    Other,
}

/// The number of beginnings.
pub(crate) const BEGINNINGS: u32 = 7;

/// Returns whether a name may have this byte: it is neither NUL nor a slash.
fn is_name_byte(byte: u8) -> bool
    ensures { result ≡ is_name_byte byte }
{
    byte != 0 && byte != b'/'
}

impl Beginning {
    /// Returns the beginning with a number counted from 0.
    pub(crate) fn numbered(code: u32) -> Beginning
        ensures { result ≡ beginning_of code }
    {
        match code {
            0 => Beginning::Nothing,
            1 => Beginning::Dot,
            2 => Beginning::TwoDots,
            3 => Beginning::DotHash,
            4 => Beginning::DotHashT,
            5 => Beginning::DotHashTf,
            _ => Beginning::Other,
        }
    }

    /// Returns the number of the beginning, counted from 0.
    pub(crate) fn number(self) -> u32
        ensures value { result ≡ code_of self }
        ensures inside { result < 7 }
    {
        match self {
            Beginning::Nothing => 0,
            Beginning::Dot => 1,
            Beginning::TwoDots => 2,
            Beginning::DotHash => 3,
            Beginning::DotHashT => 4,
            Beginning::DotHashTf => 5,
            Beginning::Other => 6,
        }
    }

    /// Returns the beginning after one more byte.
    pub(crate) fn followed_by(self, byte: u8) -> Beginning
        ensures { result ≡ beginning_after self byte }
    {
        match self {
            Beginning::Nothing => if byte == b'.' {
                Beginning::Dot
            } else {
                Beginning::Other
            },
            Beginning::Dot => if byte == b'.' {
                Beginning::TwoDots
            } else if byte == b'#' {
                Beginning::DotHash
            } else {
                Beginning::Other
            },
            Beginning::DotHash => if byte == b't' {
                Beginning::DotHashT
            } else {
                Beginning::Other
            },
            Beginning::DotHashT => if byte == b'f' {
                Beginning::DotHashTf
            } else {
                Beginning::Other
            },
            _ => Beginning::Other,
        }
    }

    /// Returns whether this byte may follow in a name that is not a staging name.
    pub(crate) fn may_precede(self, byte: u8) -> bool
        ensures { result ≡ may_follow self byte }
    {
        match self {
            Beginning::DotHashTf => is_name_byte(byte) && byte != b'-',
            _ => is_name_byte(byte),
        }
    }

    /// Returns whether a word that began so may be a name without more bytes.
    pub(crate) fn may_end(self) -> bool
        ensures { result ≡ may_end self }
    {
        match self {
            Beginning::Nothing | Beginning::Dot | Beginning::TwoDots => false,
            _ => true,
        }
    }

    /// Returns whether no byte came yet.
    pub(crate) fn is_nothing(self) -> bool
        ensures { result ≡ is_nothing self }
    {
        match self {
            Beginning::Nothing => true,
            _ => false,
        }
    }
}
