//! The table of types: what each letter takes (tmpfiles.d(5)).
ghost use Rattle.std.specs.Prelude.{◌≡◌, true};
ghost use Rattle.pv_lines.specs.Types.{creating, matching, type_of, wanting, with_age, with_encoded, with_plus, with_root};

/// How the argument of a type is read.
#[derive(Clone, Copy, PartialEq, Eq)]
pub(crate) enum Wanted {
    /// The bytes of a file, which may be omitted.
    Content,
    /// Bytes to write.
    Bytes,
    /// The target of a link. If it is omitted, it is the path of the line below `/usr/share/factory`.
    Target,
    /// The path that is copied. If it is omitted, it is the path of the line below `/usr/share/factory`.
    Source,
    /// The major and the minor number of a device.
    Device,
    /// ACL entries.
    Entries,
    /// Extended attributes.
    Attrs,
    /// File attribute flags.
    Letters,
    /// The type takes no argument, and a given one is ignored.
    Nothing,
}

/// What a type takes. All types take the modifiers `!` and `-`.
#[derive(Clone, Copy)]
pub(crate) struct Row {
    /// The `letter` of a `Line` of this type: `f` for the type `F`, otherwise the letter of the type itself.
    pub letter: u8,
    /// Whether lines of the type always have `plus`.
    pub always_plus: bool,
    /// Whether it takes `+`.
    pub plus: bool,
    /// Whether it takes `=`.
    pub replace: bool,
    /// Whether it takes `~`.
    pub encoded: bool,
    /// Whether it takes `$`. Exactly the types that create an object at their path take it.
    pub creates: bool,
    /// Whether its path may be the root.
    pub root: bool,
    /// Whether it uses an age.
    pub ages: bool,
    /// How its argument is read.
    pub wanted: Wanted,
}

impl Row {
    /// Makes the row of a type that creates an object at its path. It takes neither the root, an age nor an argument.
    fn creating(letter: u8) -> Row
        ensures { result ≡ creating letter }
    {
        Row {
            letter,
            always_plus: false,
            plus: false,
            replace: true,
            encoded: false,
            creates: true,
            root: false,
            ages: false,
            wanted: Wanted::Nothing,
        }
    }

    /// Makes the row of a type that adjusts or removes what its pattern matches. It takes neither the root, an age
    /// nor an argument.
    fn matching(letter: u8) -> Row
        ensures { result ≡ matching letter }
    {
        Row {
            replace: false,
            creates: false,
            ..Row::creating(letter)
        }
    }

    fn with_plus(self) -> Row
        ensures { result ≡ with_plus self }
    {
        Row { plus: true, ..self }
    }

    fn with_encoded(self) -> Row
        ensures { result ≡ with_encoded self }
    {
        Row {
            encoded: true,
            ..self
        }
    }

    fn with_root(self) -> Row
        ensures { result ≡ with_root self }
    {
        Row { root: true, ..self }
    }

    fn with_age(self) -> Row
        ensures { result ≡ with_age self }
    {
        Row { ages: true, ..self }
    }

    fn wanting(self, wanted: Wanted) -> Row
        ensures { result ≡ wanting wanted self }
    {
        Row { wanted, ..self }
    }

    fn kept_with_plus(self) -> Row
        ensures { result ≡ record self { always_plus = true } }
    {
        Row {
            always_plus: true,
            ..self
        }
    }

    /// Makes the row of a type that creates a file with a content.
    fn file(letter: u8) -> Row
        ensures { result ≡ with_encoded (wanting Wanted.Content (creating letter)) }
    {
        Row::creating(letter)
            .wanting(Wanted::Content)
            .with_encoded()
    }

    /// Makes the row of a type that gives ACL entries to what its pattern matches.
    fn entries(letter: u8) -> Row
        ensures { result ≡ with_root (with_plus (wanting Wanted.Entries (matching letter))) }
    {
        Row::matching(letter)
            .wanting(Wanted::Entries)
            .with_plus()
            .with_root()
    }
}

/// Returns what the type of a letter takes, or nothing if there is no such type (tmpfiles.d(5)).
pub(crate) fn type_of(letter: u8) -> Option<Row>
    ensures { result ≡ type_of letter }
{
    Some(match letter {
        b'f' => Row::file(b'f').with_plus(),
        b'F' => Row::file(b'f').kept_with_plus(),
        b'd' => Row::creating(b'd').with_age().with_root(),
        b'D' => Row::creating(b'D').with_age().with_root(),
        b'v' => Row::creating(b'v').with_age().with_root(),
        b'q' => Row::creating(b'q').with_age().with_root(),
        b'Q' => Row::creating(b'Q').with_age().with_root(),
        b'p' => Row::creating(b'p').with_plus(),
        b'L' => Row::creating(b'L').wanting(Wanted::Target).with_plus(),
        b'c' => Row::creating(b'c').wanting(Wanted::Device).with_plus(),
        b'b' => Row::creating(b'b').wanting(Wanted::Device).with_plus(),
        b'C' => Row::creating(b'C').wanting(Wanted::Source).with_age(),
        b'w' => Row::matching(b'w')
            .wanting(Wanted::Bytes)
            .with_encoded()
            .with_plus(),
        b'e' => Row::matching(b'e').with_age().with_root(),
        b'z' => Row::matching(b'z').with_root(),
        b'Z' => Row::matching(b'Z').with_root(),
        b'a' => Row::entries(b'a'),
        b'A' => Row::entries(b'A'),
        b't' => Row::matching(b't').wanting(Wanted::Attrs).with_root(),
        b'T' => Row::matching(b'T').wanting(Wanted::Attrs).with_root(),
        b'h' => Row::matching(b'h').wanting(Wanted::Letters).with_root(),
        b'H' => Row::matching(b'H').wanting(Wanted::Letters).with_root(),
        b'r' => Row::matching(b'r'),
        b'R' => Row::matching(b'R'),
        b'x' => Row::matching(b'x').with_age().with_root(),
        b'X' => Row::matching(b'X').with_age().with_root(),
        _ => return None,
    })
}
