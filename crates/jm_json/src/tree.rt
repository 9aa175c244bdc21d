// JSON trees (RFC 8259).
ghost use Rattle.std.specs.Prelude.{◌≡◌, [], ◌∷◌, ◌++◌, map, option_map, OnOk, OnErr, IfOk, IsTrue, MatchOption};
ghost use Rattle.jm_json.specs.Tree.{null};
ghost use Rattle.jm_json.specs.Json.{tree_of, member_of};
ghost use Rattle.jm_json.specs.Order.{KeysRise, put};
ghost use Rattle.jm_json.specs.Patch.{take_away};
ghost use Rattle.jm_json.specs.KeyIndices.{AllBelow, IsKeyIndex};
ghost use Rattle.jm_json.specs.Find.{find, as_text, as_list, as_object};

use jm_base::{NoMemory, Text};
use std::alloc::Global;
use std::cmp::Ordering;
use std::marker::Model;
use std::mem;

/// A JSON tree whose numbers are integers. Contracts see it as a `Tree`, by `tree_of`.
#[derive(Debug, Drop)]
#[cycle(json)]
pub enum Json {
    Null,
    Bool(bool),
    Int(i64),
    Text(Text),
    List(Items),
    Object(Members),
}

/// The items of a list. Contracts see them as the list of their trees.
#[derive(Debug, Drop)]
#[cycle(json)]
pub struct Items {
    items: Vec<Json>,
}

/// The members of an object, each key once, in byte order. Contracts see them as the list of pairs
/// of key and tree.
#[derive(Debug, Drop)]
#[cycle(json)]
pub struct Members {
    members: Vec<Member>,
}

/// A member of an object.
#[derive(Debug, Drop)]
#[cycle(json)]
pub struct Member {
    pub name: Text,
    pub value: Json,
}

// The index of a key in an object, or the index at which it would be inserted.
#[derive(Clone, Copy)]
pub(crate) enum KeyIndex {
    Held(usize),
    New(usize),
}

impl Model for Items {
    ghost use Rattle.std.specs.Prelude.{List};
    ghost use Rattle.std.specs.Coded.{coded_list};
    ghost use Rattle.jm_json.specs.Tree.{Tree};
    ghost use Rattle.jm_json.specs.TreeCodes.{tree_code};

    ghost Value = { List Tree };

    ghost coded = { coded_list tree_code };

    ghost use Rattle.std.specs.Prelude.{map};
    ghost use Rattle.jm_json.specs.Json.{tree_of};

    ghost view = { λ a. map tree_of a.items.items };

    ghost use Rattle.jm_json.specs.Tree.{trees_of};
    ghost use Rattle.jm_json.specs.Size.{trees_size};

    ghost size = { λ ts. trees_size (trees_of ts) };

    ghost use Rattle.jm_json.specs.Depths.{items_deep};

    ghost size_decreases = { λ a h. items_deep a.items.items };
}

impl Model for Members {
    ghost use Rattle.std.specs.Prelude.{List, ℕ};
    ghost use Rattle.std.specs.Coded.{coded_list, coded×, coded_ℕ};
    ghost use Rattle.jm_json.specs.Tree.{Tree};
    ghost use Rattle.jm_json.specs.TreeCodes.{tree_code};

    ghost Value = { List (List ℕ × Tree) };

    ghost coded = { coded_list (coded× (coded_list coded_ℕ) tree_code) };

    ghost use Rattle.std.specs.Prelude.{map};
    ghost use Rattle.jm_json.specs.Json.{member_of};

    ghost view = { λ a. map member_of a.members.items };

    ghost use Rattle.jm_json.specs.Order.{KeysRise};

    ghost invariant = { λ a. KeysRise (map member_of a.members.items) };

    ghost use Rattle.jm_json.specs.Tree.{fields_of};
    ghost use Rattle.jm_json.specs.Size.{fields_size};

    ghost size = { λ ms. fields_size (fields_of ms) };

    ghost use Rattle.jm_json.specs.Depths.{members_deep};

    ghost size_decreases = { λ a h. members_deep a.members.items };
}

impl Json {
    /// Lends the string, if the tree is one.
    pub fn as_text(&self) -> Option<&Text>
        ensures { option_map (λ t. t.now) result ≡ as_text (tree_of self.now) }
    {
        if let Json::Text(text) = self {
            Some(text)
        } else {
            None
        }
    }

    /// Lends the items, if the tree is a list.
    #[tactic(auto, using(crate::proofs::Lists::lists_back))]
    pub fn as_list(&self) -> Option<&Items>
        ensures { option_map (λ ts. ts.now) result ≡ as_list (tree_of self.now) }
    {
        if let Json::List(items) = self {
            Some(items)
        } else {
            None
        }
    }

    /// Lends the members, if the tree is an object.
    #[tactic(auto, using(crate::proofs::Lists::lists_back))]
    pub fn as_object(&self) -> Option<&Members>
        ensures { option_map (λ ms. ms.now) result ≡ as_object (tree_of self.now) }
    {
        if let Json::Object(members) = self {
            Some(members)
        } else {
            None
        }
    }

    /// Returns the string, if the tree is one.
    pub fn into_text(self) -> Option<Text>
        ensures { result ≡ as_text (tree_of self) }
    {
        match self {
            Json::Text(text) => Some(text),
            _ => None,
        }
    }

    /// Returns the items, if the tree is a list.
    #[tactic(auto, using(crate::proofs::Lists::lists_back))]
    pub fn into_items(self) -> Option<Items>
        ensures { result ≡ as_list (tree_of self) }
    {
        match self {
            Json::List(items) => Some(items),
            _ => None,
        }
    }

    /// Returns the members, if the tree is an object.
    #[tactic(auto, using(crate::proofs::Lists::lists_back))]
    pub fn into_members(self) -> Option<Members>
        ensures { result ≡ as_object (tree_of self) }
    {
        match self {
            Json::Object(members) => Some(members),
            _ => None,
        }
    }
}

impl Items {
    /// Returns no items. It takes no memory.
    pub fn new(alloc: Global) -> Items
        ensures { result ≡ [] }
    {
        Items {
            items: Vec::new(alloc),
        }
    }

    /// Returns no items, with room for so many.
    pub fn with_room(alloc: Global, room: usize) -> Result<Items, NoMemory>
        ensures { IfOk result (λ ts. ts ≡ []) }
    {
        Ok(Items {
            items: Vec::with_capacity(alloc, room)?,
        })
    }

    /// Returns the items of a vector. It takes no memory.
    pub fn from_vec(items: Vec<Json>) -> Items
        ensures { result ≡ map tree_of items.items }
    {
        Items { items }
    }

    /// Returns the vector of the items. It takes no memory.
    pub fn into_vec(self) -> Vec<Json>
        ensures { map tree_of result.items ≡ self }
    {
        let Items { items } = self;
        items
    }

    /// Lends the items.
    pub fn as_slice(&self) -> &[Json]
        ensures { map tree_of result.now ≡ self.now }
    {
        self.items.as_slice()
    }

    /// Adds the items of another list at the end. If an allocation fails, the items are unchanged.
    pub fn append(&mut self, more: Items) -> Result<(), NoMemory>
        ensures ok { OnOk result (self.new ≡ self.old ++ more) }
        ensures err { OnErr result (self.new ≡ self.old) }
    {
        let mut items = more.into_vec();
        self.items.append(&mut items)?;
        Ok(())
    }

    /// Adds an item at the end. If an allocation fails, the items are unchanged.
    pub fn push(&mut self, item: Json) -> Result<(), NoMemory>
        ensures ok { OnOk result (self.new ≡ self.old ++ tree_of item ∷ []) }
        ensures err { OnErr result (self.new ≡ self.old) }
    {
        self.items.push(item)?;
        Ok(())
    }
}

impl Members {
    /// Returns no members. It takes no memory.
    pub fn new(alloc: Global) -> Members
        ensures { result ≡ [] }
    {
        Members {
            members: Vec::new(alloc),
        }
    }

    /// Returns no members, with room for so many.
    pub fn with_room(alloc: Global, room: usize) -> Result<Members, NoMemory>
        ensures { IfOk result (λ ms. ms ≡ []) }
    {
        Ok(Members {
            members: Vec::with_capacity(alloc, room)?,
        })
    }

    // Returns the members of a vector whose keys rise. It takes no memory.
    pub(crate) fn from_rising(members: Vec<Member>) -> Members
        requires { KeysRise (map member_of members.items) }
        ensures { result ≡ map member_of members.items }
    {
        Members { members }
    }

    /// Returns the vector of the members. It takes no memory.
    pub fn into_vec(self) -> Vec<Member>
        ensures value { map member_of result.items ≡ self }
        ensures order { KeysRise (map member_of result.items) }
    {
        let Members { members } = self;
        members
    }

    /// Lends the members.
    pub fn as_slice(&self) -> &[Member]
        ensures value { map member_of result.now ≡ self.now }
        ensures order { KeysRise (map member_of result.now) }
    {
        self.members.as_slice()
    }

    /// Lends the value at a key.
    pub fn get(&self, name: &str) -> Option<&Json>
        ensures { option_map (λ j. tree_of j.now) result ≡ find name.now self.now }
    {
        find_value(self.members.as_slice(), name.as_bytes())
    }

    // Returns whether a key comes after all keys of the object.
    pub(crate) fn is_past(&self, name: &str) -> bool
        ensures past { IsTrue result → AllBelow name.now self.now }
        ensures not_past { AllBelow name.now self.now → IsTrue result }
        ensures order { KeysRise self.now }
    {
        is_past_all(self.members.as_slice(), name.as_bytes())
    }

    // Takes the value at a key out of the object, and leaves null there.
    pub(crate) fn take_value(&mut self, name: &str) -> Option<Json>
        ensures value { option_map tree_of result ≡ find name.now self.old }
        ensures rest { MatchOption result (self.new ≡ self.old)
            (λ _. self.new ≡ put name.now null self.old) }
    {
        take_value_of(&mut self.members, name.as_bytes())
    }

    /// Adds a member whose key comes after the others. If an allocation fails, the members are
    /// unchanged.
    pub fn push(&mut self, name: Text, value: Json) -> Result<(), NoMemory>
        requires { KeysRise (self.old ++ (name, tree_of value) ∷ []) }
        ensures ok { OnOk result (self.new ≡ self.old ++ (name, tree_of value) ∷ []) }
        ensures err { OnErr result (self.new ≡ self.old) }
    {
        self.members.push(Member { name, value })?;
        Ok(())
    }

    /// Sets the value at a key: in place of the one that is there, else as a new member at its
    /// index in the order. If an allocation fails, the members are unchanged.
    pub fn put(&mut self, name: Text, value: Json) -> Result<(), NoMemory>
        ensures ok { OnOk result (self.new ≡ put name (tree_of value) self.old) }
        ensures err { OnErr result (self.new ≡ self.old) }
    {
        put_member(&mut self.members, name, value)
    }

    /// Removes the member of a key, and returns its value.
    pub fn remove(&mut self, name: &str) -> Option<Json>
        ensures value { option_map (λ j. tree_of j) result ≡ find name.now self.old }
        ensures rest { self.new ≡ take_away name.now self.old }
    {
        remove_member(&mut self.members, name.as_bytes())
    }

    /// Sets the value at a key that is copied. If an allocation fails, the members are unchanged.
    pub fn set(&mut self, alloc: Global, name: &str, value: Json) -> Result<(), NoMemory>
        ensures ok { OnOk result (self.new ≡ put name.now (tree_of value) self.old) }
        ensures err { OnErr result (self.new ≡ self.old) }
    {
        self.put(Text::from_str(alloc, name)?, value)
    }
}

// Lends the value at a key.
pub(crate) fn find_value<'a>(members: &'a [Member], name: &[u8]) -> Option<&'a Json>
    requires { KeysRise (map member_of members.now) }
    ensures { option_map (λ j. tree_of j.now) result ≡ find name.now (map member_of members.now) }
{
    match place_of(members, name) {
        KeyIndex::Held(at) => Some(&members[at].value),
        KeyIndex::New(_) => None,
    }
}

// Removes the member of a name, and returns its value.
fn remove_member(members: &mut Vec<Member>, name: &[u8]) -> Option<Json>
    requires { KeysRise (map member_of members.old.items) }
    ensures value { option_map (λ j. tree_of j) result
        ≡ find name.now (map member_of members.old.items) }
    ensures rest { map member_of members.new.items
        ≡ take_away name.now (map member_of members.old.items) }
{
    match place_of(members.as_slice(), name) {
        KeyIndex::Held(at) => {
            let Member { value, .. } = members.remove(at);
            Some(value)
        }
        KeyIndex::New(_) => None,
    }
}

// Returns whether a key comes after all keys.
fn is_past_all(members: &[Member], name: &[u8]) -> bool
    requires { KeysRise (map member_of members.now) }
    ensures past { IsTrue result → AllBelow name.now (map member_of members.now) }
    ensures not_past { AllBelow name.now (map member_of members.now) → IsTrue result }
{
    match place_of(members, name) {
        KeyIndex::Held(_) => false,
        KeyIndex::New(at) => at == members.len(),
    }
}

// Takes the value at a name out, and leaves null there.
fn take_value_of(members: &mut Vec<Member>, name: &[u8]) -> Option<Json>
    requires { KeysRise (map member_of members.old.items) }
    ensures value { option_map tree_of result ≡ find name.now (map member_of members.old.items) }
    ensures rest { MatchOption result (members.new.items ≡ members.old.items)
        (λ _. map member_of members.new.items
        ≡ put name.now null (map member_of members.old.items)) }
{
    match place_of(members.as_slice(), name) {
        KeyIndex::Held(at) => Some(mem::replace(&mut members[at].value, Json::Null)),
        KeyIndex::New(_) => None,
    }
}

fn put_member(members: &mut Vec<Member>, name: Text, value: Json) -> Result<(), NoMemory>
    requires { KeysRise (map member_of members.old.items) }
    ensures ok { OnOk result
        (map member_of members.new.items
        ≡ put name (tree_of value) (map member_of members.old.items)) }
    ensures err { OnErr result (members.new.items ≡ members.old.items) }
{
    match place_of(members.as_slice(), name.as_bytes()) {
        KeyIndex::Held(at) => {
            members[at] = Member { name, value };
            Ok(())
        }
        KeyIndex::New(at) => {
            if at == members.len() {
                members.push(Member { name, value })?;
                return Ok(());
            }
            members.insert(at, Member { name, value })?;
            Ok(())
        }
    }
}

// Returns the index of a key by binary search. The last key is compared first, so that a key that
// comes after all takes one comparison.
pub(crate) fn place_of(members: &[Member], name: &[u8]) -> KeyIndex
    requires { KeysRise (map member_of members.now) }
    ensures { IsKeyIndex result name.now (map member_of members.now) }
{
    let mut low = 0;
    let mut high = members.len();
    let mut at = high.saturating_sub(1);
    'halves: while low < high {
        match name.cmp(members[at].name.as_bytes()) {
            Ordering::Less => high = at,
            Ordering::Equal => return KeyIndex::Held(at),
            Ordering::Greater => low = at + 1,
        }
        at = low + (high - low) / 2;
    }
    KeyIndex::New(low)
}
