//! The values of a message's fields, taken out of an object.
ghost use Rattle.std.specs.Prelude.{◌≡◌, None, option_map};
ghost use Rattle.serde_json.specs.Find.{get_member};
ghost use Rattle.serde_json.specs.View.{members_view, view};
ghost use Rattle.fields_read.specs.Fields.{name_of};
ghost use Rattle.fields_read.specs.declared.fields.Field.TheVariants.{Body, Headers, Id, Persistent, Priority};
ghost use Rattle.script_read.specs.Meetings.{first_met, met};

use serde_json::{Map, Value};

/// The values of a message's fields, each where the object has it.
#[derive(Drop)]
pub(crate) struct Pieces {
    pub(crate) id: Option<Value>,
    pub(crate) persistent: Option<Value>,
    pub(crate) priority: Option<Value>,
    pub(crate) headers: Option<Value>,
    pub(crate) body: Option<Value>,
}

/// Keeps the value, where none came before it.
fn keep(slot: &mut Option<Value>, value: Value)
    ensures { option_map (λ v. view v) slot.new
        ≡ first_met (view value) (option_map (λ v. view v) slot.old) }
{
    if slot.is_none() {
        *slot = Some(value);
    }
}

impl Pieces {
    /// Before any member was met.
    fn none() -> Pieces
        ensures id { result.id ≡ None }
        ensures persistent { result.persistent ≡ None }
        ensures priority { result.priority ≡ None }
        ensures headers { result.headers ≡ None }
        ensures body { result.body ≡ None }
    {
        Pieces {
            id: None,
            persistent: None,
            priority: None,
            headers: None,
            body: None,
        }
    }

    /// Meets a member: its value is kept, where it is the first of a field of messages.
    fn meet(&mut self, name: &str, value: Value)
        ensures id { option_map (λ v. view v) self.new.id
            ≡ met (name_of Id) name.now (view value) (option_map (λ v. view v) self.old.id) }
        ensures persistent { option_map (λ v. view v) self.new.persistent
            ≡ met (name_of Persistent) name.now (view value)
            (option_map (λ v. view v) self.old.persistent) }
        ensures priority { option_map (λ v. view v) self.new.priority
            ≡ met (name_of Priority) name.now (view value)
            (option_map (λ v. view v) self.old.priority) }
        ensures headers { option_map (λ v. view v) self.new.headers
            ≡ met (name_of Headers) name.now (view value)
            (option_map (λ v. view v) self.old.headers) }
        ensures body { option_map (λ v. view v) self.new.body
            ≡ met (name_of Body) name.now (view value) (option_map (λ v. view v) self.old.body) }
    {
        match name {
            "id" => keep(&mut self.id, value),
            "persistent" => keep(&mut self.persistent, value),
            "priority" => keep(&mut self.priority, value),
            "headers" => keep(&mut self.headers, value),
            "body" => keep(&mut self.body, value),
            _ => {}
        }
    }
}

/// The values of a message's fields among the members.
pub(crate) fn pieces_of(members: Map<String, Value>) -> Pieces
    ensures id { option_map (λ v. view v) result.id
        ≡ get_member (name_of Id) (members_view members.entries) }
    ensures persistent { option_map (λ v. view v) result.persistent
        ≡ get_member (name_of Persistent) (members_view members.entries) }
    ensures priority { option_map (λ v. view v) result.priority
        ≡ get_member (name_of Priority) (members_view members.entries) }
    ensures headers { option_map (λ v. view v) result.headers
        ≡ get_member (name_of Headers) (members_view members.entries) }
    ensures body { option_map (λ v. view v) result.body
        ≡ get_member (name_of Body) (members_view members.entries) }
{
    let mut pieces = Pieces::none();
    for (name, value) in members {
        pieces.meet(&name, value);
    }
    pieces
}
