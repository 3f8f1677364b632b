//! What an object of the tree holds: a payload or children, and mostly neither.
ghost use Rattle.std.specs.Prelude.{◌≡◌, ◌+◌, ◌^◌, ◌<◌, [], length, IfOk, IfSome, OnOk, OnErr, slice_get};
ghost use Rattle.std.specs.Option.{option_copied};
ghost use Rattle.std.specs.FinMap as fin;
ghost use Rattle.pv_tree.specs.Forms.{content_in};

use crate::children::Children;
use pv_path::{Bytes, Name, NameList};
use std::alloc::{AllocError, Global};
use std::marker::Model;

/// Children, and a payload beside them, which a directory leaves empty.
#[derive(Drop)]
struct Family {
    payload: Bytes,
    children: Children,
}

/// Where payload and children are kept.
#[derive(Drop)]
enum Form {
    /// There is neither.
    Nothing,
    /// There is a payload alone.
    Payload(Box<Bytes>),
    /// There are children.
    Family(Box<Family>),
}

/// What an object holds beside its node. It takes two words, and no memory of its own if there is neither a payload nor a
/// child. Clauses see the payload, and the map from the names of the children to their numbers.
#[derive(Drop)]
pub(crate) struct Content {
    alloc: Global,
    form: Form,
}

impl Model for Content {
    ghost use Rattle.pv_tree.specs.Content as held;
    ghost use Rattle.pv_tree.specs.Forms.{content_in};

    ghost Value = { held.Content };

    ghost coded = { held.content_code };

    ghost view = { λ c. content_in c.form };
}

impl Content {
    /// A payload alone.
    pub(crate) fn of(alloc: Global, payload: Bytes) -> Result<Content, AllocError>
        ensures { IfOk result (λ content. content ≡ record { payload = payload; children = fin.empty }) }
    {
        let form = alone(alloc, payload)?;
        Ok(Content { alloc, form })
    }

    /// The payload. It takes no memory.
    pub(crate) fn payload(&self) -> &[u8]
        ensures { result.now ≡ self.now.payload }
    {
        match &self.form {
            Form::Nothing => &[],
            Form::Payload(payload) => payload.as_slice(),
            Form::Family(family) => family.payload.as_slice(),
        }
    }

    /// Replaces the payload. After running out of memory all is as before.
    pub(crate) fn set_payload(&mut self, payload: Bytes) -> Result<(), AllocError>
        ensures ok { OnOk result (self.new ≡ record self.old { payload = payload }) }
        ensures err { OnErr result (self.new ≡ self.old) }
    {
        match &mut self.form {
            Form::Nothing => self.form = alone(self.alloc, payload)?,
            Form::Payload(old) => **old = payload,
            Form::Family(family) => family.payload = payload,
        }
        Ok(())
    }

    /// The number of the child with a name, or nothing if there is none. It takes no memory.
    #[tactic(auto, using(crate::proofs::Names::none_found))]
    pub(crate) fn get(&self, name: &Name) -> Option<usize>
        ensures { result ≡ fin.get self.now.children name.now }
    {
        match &self.form {
            Form::Family(family) => family.children.get(name),
            Form::Nothing | Form::Payload(_) => None,
        }
    }

    /// Puts a child at a name, and gives back the number of the one that it replaces. After running out of memory all
    /// is as before.
    #[tactic(auto, using(crate::proofs::Names::none_found))]
    pub(crate) fn put(&mut self, name: Name, number: usize) -> Result<Option<usize>, AllocError>
        ensures ok { OnOk result (self.new.children ≡ fin.insert self.old.children name number) }
        ensures payload { self.new.payload ≡ self.old.payload }
        ensures old { IfOk result (λ old. old ≡ fin.get self.old.children name) }
        ensures err { OnErr result (self.new ≡ self.old) }
    {
        match &mut self.form {
            Form::Family(family) => family.children.put(name, number),
            Form::Nothing => {
                let family = family_of(self.alloc, Bytes::new(self.alloc), name, number)?;
                self.form = Form::Family(family);
                Ok(None)
            }
            Form::Payload(payload) => {
                let family = family_of(self.alloc, payload.copy()?, name, number)?;
                self.form = Form::Family(family);
                Ok(None)
            }
        }
    }

    /// Takes the child with a name out, and gives back its number, if there is one.
    #[tactic(auto, using(crate::proofs::Names::none_found, crate::proofs::Names::none_removed))]
    pub(crate) fn remove(&mut self, name: &Name) -> Option<usize>
        ensures items { self.new.children ≡ fin.remove self.old.children name.now }
        ensures payload { self.new.payload ≡ self.old.payload }
        ensures old { result ≡ fin.get self.old.children name.now }
    {
        match &mut self.form {
            Form::Family(family) => family.children.remove(name),
            Form::Nothing | Form::Payload(_) => None,
        }
    }

    /// How many children there are. It takes no memory.
    #[tactic(auto, using(crate::proofs::Names::no_entries))]
    pub(crate) fn child_count(&self) -> usize
        ensures { result ≡ length (fin.entries self.now.children) }
    {
        match &self.form {
            Form::Family(family) => family.children.count(),
            Form::Nothing | Form::Payload(_) => 0,
        }
    }

    /// The names of the children, in byte order.
    #[tactic(auto, using(crate::proofs::Names::no_keys))]
    pub(crate) fn names(&self, alloc: Global) -> Result<NameList, AllocError>
        ensures { IfOk result (λ names. names ≡ fin.keys self.now.children) }
    {
        match &self.form {
            Form::Family(family) => family.children.names(alloc),
            Form::Nothing | Form::Payload(_) => Ok(NameList::new(alloc)),
        }
    }

    /// The child at a place in byte order of the names, counted from 0, or nothing past the end. It takes
    /// no memory.
    #[tactic(auto, using(crate::proofs::Names::no_entries))]
    pub(crate) fn child(&self, i: usize) -> Option<&(Name, usize)>
        ensures child { option_copied result ≡ slice_get (fin.entries self.now.children) i }
        ensures within { IfSome result (λ _. i + 1 < 2 ^ 64) }
    {
        match &self.form {
            Form::Family(family) => family.children.child(i),
            Form::Nothing | Form::Payload(_) => None,
        }
    }
}

/// A payload alone.
fn alone(alloc: Global, payload: Bytes) -> Result<Form, AllocError>
    ensures { IfOk result (λ form. content_in form ≡ record { payload = payload; children = fin.empty }) }
{
    if payload.is_empty() {
        Ok(Form::Nothing)
    } else {
        Ok(Form::Payload(Box::new(alloc, payload)?))
    }
}

/// One child, beside a payload.
fn family_of(
    alloc: Global,
    payload: Bytes,
    name: Name,
    number: usize,
) -> Result<Box<Family>, AllocError>
    ensures payload { IfOk result (λ family. family.value.payload ≡ payload) }
    ensures children { IfOk result (λ family. family.value.children ≡ fin.insert fin.empty name number) }
{
    let mut children = Children::new(alloc);
    children.put(name, number)?;
    Ok(Box::new(alloc, Family { payload, children })?)
}
