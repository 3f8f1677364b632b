//! The units of ages and their names (systemd.time(7)).
ghost use Rattle.std.specs.Prelude.{◌≡◌, ◌<◌, ◌||◌, IfSome};
ghost use Rattle.std.specs.Str.{bytes_eq};
ghost use Rattle.pv_age.specs.Sums.{is_called, micros_in, names_of, unit_micros, unit_named};

/// A unit of an age.
#[derive(Clone, Copy)]
pub(crate) enum Unit {
    Microsecond,
    Millisecond,
    Second,
    Minute,
    Hour,
    Day,
    Week,
}

/// All units of ages.
const ALL_UNITS: [Unit; 7] = [
    Unit::Microsecond,
    Unit::Millisecond,
    Unit::Second,
    Unit::Minute,
    Unit::Hour,
    Unit::Day,
    Unit::Week,
];

impl Unit {
    /// Returns whether a text is a name of the unit. The empty text stands for the second.
    fn is_called(self, name: &[u8]) -> bool
        ensures { result ≡ is_called name.now self }
    {
        match self {
            Unit::Microsecond => is_either(name, b"us", b"usec"),
            Unit::Millisecond => is_either(name, b"ms", b"msec"),
            Unit::Second => {
                name.is_empty()
                    || is_either(name, b"s", b"sec")
                    || is_either(name, b"second", b"seconds")
            }
            Unit::Minute => is_either(name, b"m", b"min") || is_either(name, b"minute", b"minutes"),
            Unit::Hour => is_either(name, b"h", b"hr") || is_either(name, b"hour", b"hours"),
            Unit::Day => name == b"d".as_slice() || is_either(name, b"day", b"days"),
            Unit::Week => name == b"w".as_slice() || is_either(name, b"week", b"weeks"),
        }
    }

    /// Returns how many microseconds the unit has.
    fn micros(self) -> u64
        ensures value { result ≡ micros_in self }
        ensures positive { 0 < result }
    {
        match self {
            Unit::Microsecond => 1,
            Unit::Millisecond => 1_000,
            Unit::Second => 1_000_000,
            Unit::Minute => 60_000_000,
            Unit::Hour => 3_600_000_000,
            Unit::Day => 86_400_000_000,
            Unit::Week => 604_800_000_000,
        }
    }
}

/// Returns whether a text is one of two names.
fn is_either(text: &[u8], name: &[u8], other: &[u8]) -> bool
    ensures { result ≡ (bytes_eq text.now name.now || bytes_eq text.now other.now) }
{
    text == name || text == other
}

/// Returns the unit with a name, if there is one.
fn unit_named(name: &[u8]) -> Option<Unit>
    ensures { result ≡ unit_named name.now }
{
    ALL_UNITS.iter().copied().find(|unit| unit.is_called(name))
}

/// Returns how many microseconds the unit with a name has, if there is such a unit.
pub(crate) fn unit_micros(name: &[u8]) -> Option<u64>
    ensures value { result ≡ unit_micros name.now }
    ensures positive { IfSome result (λ micros. 0 < micros) }
{
    match unit_named(name) {
        Some(unit) => Some(unit.micros()),
        None => None,
    }
}
