//! The plain model's logs of writes.
ghost use Rattle.std.specs.Prelude.{◌≡◌};

use ipl_base::Value;

/// A write of a name: its value, or none where it is deleted.
#[derive(Drop)]
pub struct Write {
    pub name: u32,
    pub value: Option<Value>,
}

impl Write {
    /// The same write again; it takes no memory.
    pub fn copy(&self) -> Write
        ensures { result ≡ self.now }
    {
        Write {
            name: self.name,
            value: copied(&self.value),
        }
    }
}

/// An open session: its writes and the names that it shares, the oldest first.
#[derive(Drop)]
pub struct LoggedSession {
    pub writes: Vec<Write>,
    pub shared: Vec<u32>,
}

/// The same value or none again.
pub fn copied(value: &Option<Value>) -> Option<Value>
    ensures { result ≡ value.now }
{
    match value {
        Some(value) => Some(value.copy()),
        None => None,
    }
}
