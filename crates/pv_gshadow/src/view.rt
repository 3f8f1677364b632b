//! The entries of /etc/gshadow (gshadow(5)), looked up by the name of the group and not copied.
ghost use Rattle.std.specs.Prelude.{◌≡◌};
ghost use Rattle.std.specs.Option.{option_map};
ghost use Rattle.pv_accounts.specs.Entries.{entry_of, is_gshadow};
ghost use Rattle.pv_accounts.specs.Files.{entry_named};
ghost use Rattle.pv_gshadow.specs.GroupPasswords.{gshadow_fields};

use pv_accounts::{Kind, find_line, gshadow_parts};
use std::marker::Model;

/// An entry of /etc/gshadow (gshadow(5)): the four fields of its line as slices of the file, without the colons.
#[derive(Clone, Copy)]
pub struct GshadowEntry<'a> {
    /// The name of the group: not empty, and not beginning with `+`, `-` or `#`.
    pub name: &'a [u8],
    /// The encrypted password of the group, or a text such as `!` or `*` that no password matches.
    pub password: &'a [u8],
    /// The names of the users that may change the password and the members, with commas between them. It may be empty.
    pub administrators: &'a [u8],
    /// The names of the users that are members, with commas between them. It may be empty.
    pub members: &'a [u8],
}

/// The text of /etc/gshadow (gshadow(5)), for looking up its entries. In contracts, a value is the list of the bytes of
/// the file.
#[derive(Drop)]
pub struct GshadowView<'a> {
    file: &'a [u8],
}

impl<'a> Model for GshadowView<'a> {
    ghost use Rattle.std.specs.Prelude.{ℕ, List};

    ghost Value = { List ℕ };

    ghost view = { λ v. v.file.now };
}

/// Returns a view of a text of /etc/gshadow, in which [`GshadowView::entry`] looks up groups. It reads nothing yet and
/// does not allocate.
///
/// `file` may be any bytes. A line that is not an entry is no error.
pub fn gshadow_view(file: &[u8]) -> GshadowView<'_>
    ensures { result ≡ file.now }
{
    GshadowView { file }
}

impl<'a> GshadowView<'a> {
    /// Returns the first entry whose name is `name`, or `None` if there is none.
    ///
    /// An entry is a line of exactly four fields between colons, whose name is not empty and does not begin with `+`,
    /// `-` or `#`. All other lines are passed over. The fields are slices of the file, and nothing is allocated.
    ///
    /// For example, in `app:!*::alice` the entry of `app` has the password `!*`, no administrators and the members
    /// `alice`.
    pub fn entry(&self, name: &[u8]) -> Option<GshadowEntry<'a>>
        ensures { option_map gshadow_fields result ≡ entry_named is_gshadow self.now name.now }
    {
        gshadow_entry(find_line(Kind::Gshadow, self.file, name)?)
    }
}

/// Returns the entry that a line is, or `None` if the line is not an entry.
fn gshadow_entry(line: &[u8]) -> Option<GshadowEntry<'_>>
    ensures { option_map gshadow_fields result ≡ entry_of is_gshadow line.now }
{
    let (name, password, administrators, members) = gshadow_parts(line)?;
    Some(GshadowEntry {
        name,
        password,
        administrators,
        members,
    })
}
