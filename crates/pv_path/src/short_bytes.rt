//! Byte strings. One of at most 16 bytes needs no allocation.
ghost use Rattle.std.specs.Prelude.{◌≡◌, ◌≤◌, length, IfOk};
ghost use Rattle.pv_path.specs.Heads.{head_of};
ghost use Rattle.pv_path.specs.ShortBytes.{bytes_in, HasPlace};

use std::alloc::{AllocError, Global};
use std::marker::Model;

/// The bytes: either an array of which the first `usize` bytes count, or a vector.
#[derive(Drop)]
enum Form {
    Here(usize, [u8; 16]),
    Apart(Vec<u8>),
}

/// A byte string. One of at most 16 bytes is kept inside of this value, so that a copy of it does not allocate.
///
/// In contracts, a value is the list of its bytes.
#[derive(Drop)]
pub(crate) struct ShortBytes {
    form: Form,
}

impl Model for ShortBytes {
    ghost use Rattle.std.specs.Prelude.{List, ℕ};
    ghost use Rattle.pv_path.specs.ShortBytes.{bytes_in, HasPlace};

    ghost Value = { List ℕ };

    ghost view = { λ s. bytes_in s.form };

    ghost invariant = { λ s. HasPlace s.form };
}

impl ShortBytes {
    /// Makes a value from a copy of the bytes.
    pub(crate) fn of(alloc: Global, bytes: &[u8]) -> Result<ShortBytes, AllocError>
        ensures { IfOk result (λ copy. copy ≡ bytes.now) }
    {
        let form = if bytes.len() <= 16 {
            here(bytes)
        } else {
            Form::Apart(Vec::from_slice(alloc, bytes)?)
        };
        Ok(ShortBytes { form })
    }

    /// Returns the bytes.
    pub(crate) fn as_slice(&self) -> &[u8]
        ensures { result.now ≡ self.now }
    {
        match &self.form {
            Form::Here(count, place) => &place[..*count],
            Form::Apart(bytes) => bytes.as_slice(),
        }
    }

    /// Returns the first eight bytes as one big-endian number. If there are fewer, zeros follow.
    pub(crate) fn head(&self) -> u64
        ensures { result ≡ head_of self.now }
    {
        head_of(all_bytes(&self.form))
    }

    /// Returns a copy of the bytes.
    pub(crate) fn copy(&self) -> Result<ShortBytes, AllocError>
        ensures { IfOk result (λ copy. copy ≡ self.now) }
    {
        let form = match &self.form {
            Form::Here(count, place) => Form::Here(*count, *place),
            Form::Apart(bytes) => Form::Apart(bytes.clone()?),
        };
        Ok(ShortBytes { form })
    }
}

/// Keeps at most 16 bytes inside of the value.
fn here(bytes: &[u8]) -> Form
    requires { length bytes.now ≤ 16 }
    ensures bytes { bytes_in result ≡ bytes.now }
    ensures place { HasPlace result }
{
    let mut place = [0; 16];
    place[..bytes.len()].copy_from_slice(bytes);
    Form::Here(bytes.len(), place)
}

/// Returns the bytes and all zeros that follow them. There are at least eight.
fn all_bytes(form: &Form) -> &[u8]
    requires { HasPlace form.now }
    ensures count { 8 ≤ length result.now }
    ensures head { head_of result.now ≡ head_of (bytes_in form.now) }
{
    match form {
        Form::Here(_, place) => place,
        Form::Apart(bytes) => bytes.as_slice(),
    }
}

/// Returns the first eight bytes as one big-endian number.
fn head_of(bytes: &[u8]) -> u64
    requires { 8 ≤ length bytes.now }
    ensures { result ≡ head_of bytes.now }
{
    match bytes.first_chunk::<8>() {
        Some(first) => u64::from_be_bytes(*first),
        None => unreachable!(),
    }
}
