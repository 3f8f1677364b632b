//! The named classes of ASCII bytes, such as `[:digit:]`.
ghost use Rattle.std.specs.Prelude.{◌≡◌};
ghost use Rattle.std.specs.Option.{option_map};
ghost use Rattle.pv_glob.specs.Elements.{class_named};

use crate::element::ByteRange;

const ALNUM: [ByteRange; 3] = [
    ByteRange {
        low: b'0',
        high: b'9',
    },
    ByteRange {
        low: b'A',
        high: b'Z',
    },
    ByteRange {
        low: b'a',
        high: b'z',
    },
];

const ALPHA: [ByteRange; 2] = [
    ByteRange {
        low: b'A',
        high: b'Z',
    },
    ByteRange {
        low: b'a',
        high: b'z',
    },
];

const BLANK: [ByteRange; 2] = [
    ByteRange {
        low: b'\t',
        high: b'\t',
    },
    ByteRange {
        low: b' ',
        high: b' ',
    },
];

const CNTRL: [ByteRange; 2] = [
    ByteRange { low: 0, high: 31 },
    ByteRange {
        low: 127,
        high: 127,
    },
];

const DIGIT: [ByteRange; 1] = [ByteRange {
    low: b'0',
    high: b'9',
}];

const GRAPH: [ByteRange; 1] = [ByteRange {
    low: b'!',
    high: b'~',
}];

const LOWER: [ByteRange; 1] = [ByteRange {
    low: b'a',
    high: b'z',
}];

const PRINT: [ByteRange; 1] = [ByteRange {
    low: b' ',
    high: b'~',
}];

const PUNCT: [ByteRange; 4] = [
    ByteRange {
        low: b'!',
        high: b'/',
    },
    ByteRange {
        low: b':',
        high: b'@',
    },
    ByteRange {
        low: b'[',
        high: b'`',
    },
    ByteRange {
        low: b'{',
        high: b'~',
    },
];

const SPACE: [ByteRange; 2] = [
    ByteRange {
        low: b'\t',
        high: b'\r',
    },
    ByteRange {
        low: b' ',
        high: b' ',
    },
];

const UPPER: [ByteRange; 1] = [ByteRange {
    low: b'A',
    high: b'Z',
}];

const XDIGIT: [ByteRange; 3] = [
    ByteRange {
        low: b'0',
        high: b'9',
    },
    ByteRange {
        low: b'A',
        high: b'F',
    },
    ByteRange {
        low: b'a',
        high: b'f',
    },
];

/// Returns the ranges of the class of ASCII bytes with this name, or `None` if there is no such class.
pub(crate) fn class_named(name: &[u8]) -> Option<&'static [ByteRange]>
    ensures { option_map (λ s. s.now) result ≡ class_named name.now }
{
    if name == b"alnum".as_slice() {
        Some(&ALNUM)
    } else if name == b"alpha".as_slice() {
        Some(&ALPHA)
    } else if name == b"blank".as_slice() {
        Some(&BLANK)
    } else if name == b"cntrl".as_slice() {
        Some(&CNTRL)
    } else if name == b"digit".as_slice() {
        Some(&DIGIT)
    } else if name == b"graph".as_slice() {
        Some(&GRAPH)
    } else if name == b"lower".as_slice() {
        Some(&LOWER)
    } else if name == b"print".as_slice() {
        Some(&PRINT)
    } else if name == b"punct".as_slice() {
        Some(&PUNCT)
    } else if name == b"space".as_slice() {
        Some(&SPACE)
    } else if name == b"upper".as_slice() {
        Some(&UPPER)
    } else if name == b"xdigit".as_slice() {
        Some(&XDIGIT)
    } else {
        None
    }
}
