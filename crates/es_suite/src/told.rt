//! What is told of an answer: objects member by member, lists item by item, and the words of faults.

use es_model::{CallFault, Code};
use es_transcode::{DecodeFault, id_text};
use serde_json::{Map, ToValue, Value};
use std::alloc::Global;
use uuid::Uuid;

/// An object that is told member by member.
#[derive(Drop)]
pub struct Members {
    alloc: Global,
    members: Map<String, Value>,
    is_lost: bool,
}

impl Members {
    pub fn new(alloc: Global) -> Members {
        Members {
            alloc,
            members: Map::new(alloc),
            is_lost: false,
        }
    }

    /// Tells a member. Where memory is out the object is lost, which its end says.
    pub fn put<T: ToValue>(&mut self, name: &str, value: T) {
        match value.to_value(self.alloc) {
            Ok(value) => self.put_value(name, value),
            Err(_) => self.is_lost = true,
        }
    }

    // Adds a member.
    fn put_value(&mut self, name: &str, value: Value) {
        if serde_json::put(&mut self.members, self.alloc, name, value).is_err() {
            self.is_lost = true;
        }
    }

    /// Tells an id as its digits.
    pub fn put_id(&mut self, name: &str, id: Uuid) {
        match id_text(self.alloc, &id) {
            Ok(text) => self.put(name, text.as_str()),
            Err(_) => self.is_lost = true,
        }
    }

    /// Tells bytes as the text that they are.
    pub fn put_bytes(&mut self, name: &str, bytes: &[u8]) {
        match str::from_utf8(bytes) {
            Ok(text) => self.put(name, text),
            Err(_) => self.is_lost = true,
        }
    }

    /// Tells a list.
    pub fn put_items(&mut self, name: &str, items: Items) {
        self.is_lost |= items.is_lost;
        self.put_value(name, Value::Array(items.items));
    }

    /// Tells an object.
    pub fn put_members(&mut self, name: &str, members: Members) {
        self.is_lost |= members.is_lost;
        self.put_value(name, Value::Object(members.members));
    }

    /// The object.
    pub fn end(self) -> anyhow::Result<Value> {
        if self.is_lost {
            Err(anyhow::anyhow!("out of memory, or bytes that are no text"))
        } else {
            Ok(Value::Object(self.members))
        }
    }
}

/// A list that is told item by item.
#[derive(Drop)]
pub struct Items {
    alloc: Global,
    items: Vec<Value>,
    is_lost: bool,
}

impl Items {
    pub fn new(alloc: Global) -> Items {
        Items {
            alloc,
            items: Vec::new(alloc),
            is_lost: false,
        }
    }

    /// Tells an item. Where memory is out the list is lost, which its end says.
    pub fn put<T: ToValue>(&mut self, value: T) {
        match value.to_value(self.alloc) {
            Ok(value) => self.put_value(value),
            Err(_) => self.is_lost = true,
        }
    }

    // Adds an item.
    fn put_value(&mut self, value: Value) {
        if self.items.push(value).is_err() {
            self.is_lost = true;
        }
    }

    /// Tells an id as its digits.
    pub fn put_id(&mut self, id: Uuid) {
        match id_text(self.alloc, &id) {
            Ok(text) => self.put(text.as_str()),
            Err(_) => self.is_lost = true,
        }
    }

    /// Tells bytes as the text that they are.
    pub fn put_bytes(&mut self, bytes: &[u8]) {
        match str::from_utf8(bytes) {
            Ok(text) => self.put(text),
            Err(_) => self.is_lost = true,
        }
    }

    /// Tells a list.
    pub fn put_items(&mut self, items: Items) {
        self.is_lost |= items.is_lost;
        self.put_value(Value::Array(items.items));
    }

    /// Tells an object.
    pub fn put_members(&mut self, members: Members) {
        self.is_lost |= members.is_lost;
        self.put_value(Value::Object(members.members));
    }

    /// The list.
    pub fn end(self) -> anyhow::Result<Value> {
        if self.is_lost {
            Err(anyhow::anyhow!("out of memory, or bytes that are no text"))
        } else {
            Ok(Value::Array(self.items))
        }
    }
}

/// A text.
pub fn text(alloc: Global, text: &str) -> anyhow::Result<Value> {
    Ok(Value::try_from_str(alloc, text)?)
}

/// Bytes as the text that they are.
pub fn bytes(alloc: Global, bytes: &[u8]) -> anyhow::Result<Value> {
    text(alloc, str::from_utf8(bytes)?)
}

/// An id as its digits.
pub fn id(alloc: Global, id: Uuid) -> anyhow::Result<Value> {
    text(alloc, id_text(alloc, &id)?.as_str())
}

/// A fault by its name.
pub fn fault(alloc: Global, name: &str) -> anyhow::Result<Value> {
    let mut told = Members::new(alloc);
    told.put("fault", name);
    told.end()
}

/// That memory was out, which no case wants.
pub fn no_memory<T: Drop>() -> anyhow::Result<T> {
    Err(anyhow::anyhow!("out of memory"))
}

/// Numbers one after the other.
pub fn numbers(alloc: Global, numbers: &[u64]) -> Items {
    let mut items = Items::new(alloc);
    for number in numbers {
        items.put(*number);
    }
    items
}

/// An object of one member, which is a list.
pub fn lone(alloc: Global, name: &str, items: Items) -> anyhow::Result<Value> {
    let mut told = Members::new(alloc);
    told.put_items(name, items);
    told.end()
}

/// A call that failed.
pub fn failed(alloc: Global, fault: &CallFault) -> anyhow::Result<Value> {
    match fault {
        CallFault::Failed => text(alloc, "failed"),
        CallFault::NoMemory => no_memory(),
    }
}

/// A code with the path of its place.
pub fn place(alloc: Global, code: &str, path: &str) -> anyhow::Result<Value> {
    let mut told = Members::new(alloc);
    told.put("code", code);
    told.put("path", path);
    told.end()
}

/// The code of a document's fault, as an end line tells it.
pub fn code(code: Code) -> &'static str {
    match code {
        Code::Long => "long",
        Code::Json => "json",
        Code::Form => "form",
        Code::Limit => "limit",
        Code::Name => "name",
        Code::Repeat => "repeat",
        Code::Unknown => "unknown",
        Code::Kind => "kind",
        Code::Fields => "fields",
        Code::Order => "order",
        Code::Pipe => "pipe",
    }
}

/// The name of a record's fault.
pub fn of_record(fault: DecodeFault) -> &'static str {
    match fault {
        DecodeFault::NotJson => "NotJson",
        DecodeFault::NotRecord => "NotRecord",
        DecodeFault::Number => "Number",
        DecodeFault::Shape => "Shape",
        DecodeFault::UnknownType => "UnknownType",
        DecodeFault::BadData => "BadData",
        DecodeFault::Deep => "Deep",
        DecodeFault::NoMemory => "out of memory",
    }
}
