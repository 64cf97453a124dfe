//! The steps of the plain model, a function for each command.
ghost use Rattle.std.specs.Prelude.{◌≡◌, ◌∷◌, [], map, IfOk};
ghost use Rattle.std.specs.FinMap.{get};
ghost use Rattle.ipl_model.specs.State.{see};
ghost use Rattle.ipl_model.specs.Operations.{rows};
ghost use Rattle.ipl_model.specs.Step.{found_reply, row_reply};
ghost use Rattle.ipl_model.specs.Plain.{state_of, limits_of, IsStep};
ghost use Rattle.ipl_model.specs.declared.command.Command.TheVariants as command;

use super::PlainModel;
use super::scan::record;
use crate::{Command, Reply};
use ipl_base::{Refusal, Value};
use std::alloc::{AllocError, Global};

/// A reply of one line.
fn one_line(alloc: Global, reply: Reply) -> Result<Vec<Reply>, AllocError>
    ensures { IfOk result (λ replies. replies.items ≡ reply ∷ []) }
{
    let mut replies = Vec::with_capacity(alloc, 1)?;
    replies.push_reserved(reply);
    Ok(replies)
}

/// A value or none, as a reply.
fn found(value: Option<Value>) -> Reply
    ensures { result ≡ found_reply value }
{
    match value {
        Some(value) => Reply::Value(value),
        None => Reply::Nothing,
    }
}

impl PlainModel {
    /// The committed value of a name.
    fn record(&self, name: u32) -> Option<Value>
        ensures { result ≡ get (state_of self.now).map name }
    {
        record(&self.committed, name)
    }

    /// What a session sees of a name.
    fn see(&self, s: u32, name: u32) -> Option<Value>
        ensures { result ≡ see (state_of self.now) s name }
    {
        match self.last_write(s, name) {
            Some(value) => value,
            None => self.record(name),
        }
    }

    /// Opens a session.
    fn begin(&mut self, s: u32) -> Result<Vec<Reply>, AllocError>
        ensures { IsStep self.old (command.Begin s) self.new result }
    {
        if let Some(refusal) = self.refuses_begin(s) {
            return one_line(self.alloc, Reply::Refused(refusal));
        }
        let replies = one_line(self.alloc, Reply::Ok)?;
        self.open_session(s);
        Ok(replies)
    }

    fn get(&mut self, s: u32, name: u32) -> Result<Vec<Reply>, AllocError>
        ensures { IsStep self.old (command.Get s name) self.new result }
    {
        if let Some(refusal) = self.refuses_get(s, name) {
            return one_line(self.alloc, Reply::Refused(refusal));
        }
        one_line(self.alloc, found(self.see(s, name)))
    }

    fn share(&mut self, s: u32, name: u32) -> Result<Vec<Reply>, AllocError>
        ensures { IsStep self.old (command.Share s name) self.new result }
    {
        if let Some(refusal) = self.refuses_share(s, name) {
            return one_line(self.alloc, Reply::Refused(refusal));
        }
        let replies = one_line(self.alloc, found(self.see(s, name)))?;
        if self.is_new_share(s, name) {
            self.add_share(s, name)?;
        }
        Ok(replies)
    }

    fn put(&mut self, s: u32, name: u32, bytes: &[u8]) -> Result<Vec<Reply>, AllocError>
        ensures { IsStep self.old (command.Put s name bytes.now) self.new result }
    {
        if let Some(refusal) = self.refuses_put(s, name, bytes)? {
            return one_line(self.alloc, Reply::Refused(refusal));
        }
        let replies = one_line(self.alloc, Reply::Ok)?;
        self.add_write(s, name, Value::of(bytes))?;
        Ok(replies)
    }

    fn del(&mut self, s: u32, name: u32) -> Result<Vec<Reply>, AllocError>
        ensures { IsStep self.old (command.Del s name) self.new result }
    {
        if let Some(refusal) = self.refuses_del(s, name)? {
            return one_line(self.alloc, Reply::Refused(refusal));
        }
        let replies = one_line(self.alloc, Reply::Ok)?;
        self.add_write(s, name, None)?;
        Ok(replies)
    }

    fn commit(&mut self, s: u32) -> Result<Vec<Reply>, AllocError>
        ensures { IsStep self.old (command.Commit s) self.new result }
    {
        if let Some(refusal) = self.refuses_end(s) {
            return one_line(self.alloc, Reply::Refused(refusal));
        }
        let replies = one_line(self.alloc, Reply::Ok)?;
        self.apply_writes(s)?;
        Ok(replies)
    }

    fn batch(&mut self, sessions: &[u32]) -> Result<Vec<Reply>, AllocError>
        ensures { IsStep self.old (command.Batch sessions.now) self.new result }
    {
        if let Some(refusal) = self.refuses_batch(sessions) {
            return one_line(self.alloc, Reply::Refused(refusal));
        }
        let replies = one_line(self.alloc, Reply::Ok)?;
        self.apply_batch(sessions)?;
        Ok(replies)
    }

    fn abort(&mut self, s: u32) -> Result<Vec<Reply>, AllocError>
        ensures { IsStep self.old (command.Abort s) self.new result }
    {
        if let Some(refusal) = self.refuses_end(s) {
            return one_line(self.alloc, Reply::Refused(refusal));
        }
        let replies = one_line(self.alloc, Reply::Ok)?;
        self.close_session(s);
        Ok(replies)
    }

    /// The records from name `a` to name `b`, rising.
    fn rows(&self, a: u32, b: u32) -> Result<Vec<Reply>, AllocError>
        ensures { IfOk result (λ replies.
            replies.items ≡ map row_reply (rows (state_of self.now).map a b)) }
    {
        let mut replies = Vec::new(self.alloc);
        let count = (u64::from(b) + 1).saturating_sub(u64::from(a));
        for i in 0..count {
            let name = (u64::from(a) + i) as u32;
            if let Some(value) = self.record(name) {
                replies.push(Reply::Row(name, value))?;
            }
        }
        Ok(replies)
    }

    fn list(&mut self, a: u32, b: u32) -> Result<Vec<Reply>, AllocError>
        ensures { IsStep self.old (command.List a b) self.new result }
    {
        if let Some(refusal) = self.refuses_list(a, b) {
            return one_line(self.alloc, Reply::Refused(refusal));
        }
        let mut replies = self.rows(a, b)?;
        replies.push(Reply::End)?;
        Ok(replies)
    }

    fn merge(&mut self, unit: u32) -> Result<Vec<Reply>, AllocError>
        ensures { IsStep self.old (command.Merge unit) self.new result }
    {
        if let Some(refusal) = self.refuses_merge(unit) {
            return one_line(self.alloc, Reply::Refused(refusal));
        }
        one_line(self.alloc, Reply::Ok)
    }

    fn restart(&mut self) -> Result<Vec<Reply>, AllocError>
        ensures { IsStep self.old command.Restart self.new result }
    {
        let replies = one_line(self.alloc, Reply::Ok)?;
        self.close_all();
        Ok(replies)
    }

    /// One step, whatever the command.
    pub fn answer(&mut self, command: &Command) -> Result<Vec<Reply>, AllocError>
        ensures { IsStep self.old command.now self.new result }
    {
        match command {
            Command::Begin(s) => self.begin(*s),
            Command::Get(s, name) => self.get(*s, *name),
            Command::Share(s, name) => self.share(*s, *name),
            Command::Put(s, name, bytes) => self.put(*s, *name, bytes.bytes()),
            Command::Del(s, name) => self.del(*s, *name),
            Command::Commit(s) => self.commit(*s),
            Command::Batch(sessions) => self.batch(sessions.numbers()),
            Command::Abort(s) => self.abort(*s),
            Command::List(a, b) => self.list(*a, *b),
            Command::Merge(unit) => self.merge(*unit),
            Command::Restart => self.restart(),
            Command::Syntax => one_line(self.alloc, Reply::Syntax),
        }
    }
}
