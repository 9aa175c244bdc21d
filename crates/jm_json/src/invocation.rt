// The calls of a request and the responses to them (RFC 8620, sections 3.2 to 3.4).
ghost use Rattle.std.specs.Prelude.{◌≡◌, [], ◌∷◌, ◌++◌, map, IfOk, OnOk, OnErr};
ghost use Rattle.jm_json.specs.Call.{error_of};
ghost use Rattle.jm_json.specs.Invocations.{call_of};

use crate::copies::copy;
use crate::tree::{Json, Members};
use jm_base::{NoMemory, Sequence, Text};
use std::alloc::Global;
use std::marker::Model;

/// A call of a method, or a response to one: the method's name, the arguments, and the client's id
/// of the call (RFC 8620, section 3.2). Contracts see it as a `Call`, by `call_of`.
#[derive(Drop)]
pub struct Invocation {
    pub name: Text,
    pub args: Json,
    pub id: Text,
}

/// A list of calls or responses. Contracts see it as the list of their `Call`s.
#[derive(Drop)]
pub struct Invocations {
    items: Vec<Invocation>,
}

/// A record that a request created: the creation id that the client gave it, and its id as a string
/// (RFC 8620, sections 3.3 and 5.3).
#[derive(Debug, Drop)]
pub struct Created {
    pub creation: Text,
    pub id: Text,
}

/// The records that a request has created up to here, in the order of creation. Of records with one
/// creation id the last counts.
pub type Made = Sequence<Created>;

/// The reply to a call: its responses, and the records that it created.
#[derive(Drop)]
pub struct Replied {
    pub responses: Invocations,
    pub made: Made,
}

impl Model for Invocations {
    ghost use Rattle.std.specs.Prelude.{List, map};
    ghost use Rattle.std.specs.Coded.{coded_list};
    ghost use Rattle.jm_json.specs.Call.{Call, call_code};

    ghost Value = { List Call };

    ghost coded = { coded_list call_code };

    ghost use Rattle.jm_json.specs.Invocations.{call_of};

    ghost view = { λ a. map call_of a.items.items };
}

impl Invocation {
    /// Returns the response that reports an error of this type, to the call with this id (RFC 8620,
    /// section 3.6.2).
    pub fn build_error_response(alloc: Global, kind: &str, id: Text) -> Result<Invocation, NoMemory>
        ensures { IfOk result (λ c. call_of c ≡ error_of kind.now id) }
    {
        let mut args = Members::new(alloc);
        let kind = Text::from_str(alloc, kind)?;
        args.set(alloc, "type", Json::Text(kind))?;
        Ok(Invocation {
            name: Text::from_str(alloc, "error")?,
            args: Json::Object(args),
            id,
        })
    }

    /// Returns a copy of the call.
    pub fn copy(&self, alloc: Global) -> Result<Invocation, NoMemory>
        ensures { IfOk result (λ c. call_of c ≡ call_of self.now) }
    {
        Ok(Invocation {
            name: self.name.copy()?,
            args: copy(alloc, &self.args)?,
            id: self.id.copy()?,
        })
    }
}

impl Invocations {
    /// Returns the empty list. It takes no memory.
    pub fn new(alloc: Global) -> Invocations
        ensures { result ≡ [] }
    {
        Invocations {
            items: Vec::new(alloc),
        }
    }

    /// Returns the list of a vector's items. It takes no memory.
    pub fn from_vec(items: Vec<Invocation>) -> Invocations
        ensures { result ≡ map call_of items.items }
    {
        Invocations { items }
    }

    /// Returns the vector of the list's items. It takes no memory.
    pub fn into_vec(self) -> Vec<Invocation>
        ensures { map call_of result.items ≡ self }
    {
        let Invocations { items } = self;
        items
    }

    /// Lends the calls.
    pub fn as_slice(&self) -> &[Invocation]
        ensures { map call_of result.now ≡ self.now }
    {
        self.items.as_slice()
    }

    /// Adds the calls of another list at the end. If an allocation fails, the list is unchanged.
    pub fn append(&mut self, more: Invocations) -> Result<(), NoMemory>
        ensures ok { OnOk result (self.new ≡ self.old ++ more) }
        ensures err { OnErr result (self.new ≡ self.old) }
    {
        if self.items.is_empty() {
            *self = more;
            return Ok(());
        }
        let mut items = more.into_vec();
        self.items.append(&mut items)?;
        Ok(())
    }

    /// Adds a call at the end. If an allocation fails, the list is unchanged.
    pub fn push(&mut self, item: Invocation) -> Result<(), NoMemory>
        ensures ok { OnOk result (self.new ≡ self.old ++ call_of item ∷ []) }
        ensures err { OnErr result (self.new ≡ self.old) }
    {
        self.items.push(item)?;
        Ok(())
    }
}
