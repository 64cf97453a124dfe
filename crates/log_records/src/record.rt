//! What a log record says.
ghost use Rattle.std.specs.Prelude.{◌≡◌, ◌≤◌, length};
ghost use Rattle.ipl_base.specs.declared.limits.TheConstants.{VALUE_LEN};
ghost use Rattle.ipl_format.specs.Record.{kind_of, value_of};
ghost use Rattle.log_records.specs.View.{change_of};

use ipl_base::Value;

/// What a record does to its slot.
#[derive(Debug, PartialEq, Eq, Drop)]
pub enum Change {
    /// The slot gets this value.
    Put(Value),
    /// The slot is emptied.
    Delete,
}

impl Change {
    /// The number of its kind in a log record: 1 for a put, 2 for a delete. The table is in
    /// docs/FORMAT.md, "Log payload".
    pub(crate) fn kind(&self) -> u8
        ensures { result ≡ kind_of (change_of self.now) }
    {
        match self {
            Change::Put(_) => 1,
            Change::Delete => 2,
        }
    }

    /// The value of a put, 0 to 464 bytes, and no bytes for a delete.
    pub(crate) fn bytes(&self) -> &[u8]
        ensures value { result.now ≡ value_of (change_of self.now) }
        ensures fits { length result.now ≤ VALUE_LEN }
    {
        match self {
            Change::Put(value) => value.bytes(),
            Change::Delete => &[],
        }
    }
}

/// One change of one slot of a page, by a transaction. The table is in docs/FORMAT.md, "Log payload".
#[derive(Debug, PartialEq, Eq, Drop)]
pub struct Record {
    /// 0 to 14.
    pub page: u32,
    /// 0 to 63.
    pub slot: u32,
    /// The number of the transaction.
    pub tid: u64,
    /// What becomes of the slot.
    pub change: Change,
}
