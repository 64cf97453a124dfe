//! What the model makes of a script: what it says, and what the records are after each command.
use anyhow::Result;
use ipl_base::Geometry;
use ipl_model::{Command, Line, PlainModel};
use script_text::{TextLine, parse, print};
use std::alloc::Global;

/// What the model says of a script. For each number of commands, from 0 on, how many bytes are said
/// then, and what a look at the records says.
#[derive(Drop)]
pub struct Modelled {
    said: Vec<u8>,
    ends: Vec<usize>,
    looks: Vec<Vec<u8>>,
}

/// The commands of a script are done, and their replies added.
fn do_script(model: &mut PlainModel, script: &[u8], said: &mut Vec<u8>) -> Result<()> {
    for line in str::from_utf8(script)?.split('\n') {
        if let Line::Do(command) = parse(line.as_bytes()) {
            do_command(model, &command, said)?;
        }
    }
    Ok(())
}

/// A command is done, and its reply added.
fn do_command(model: &mut PlainModel, command: &Command, said: &mut Vec<u8>) -> Result<()> {
    let mut text = TextLine::empty();
    for reply in &model.step(command)? {
        print(reply, &mut text);
        said.extend_from_slice(text.bytes())?;
    }
    Ok(())
}

/// What a look at the model's records says.
fn look_at(alloc: Global, model: &mut PlainModel, look: &[u8]) -> Result<Vec<u8>> {
    let mut said = Vec::new(alloc);
    do_script(model, look, &mut said)?;
    Ok(said)
}

/// Only a commit changes the records.
fn commits(command: &Command) -> bool {
    matches!(command, Command::Commit(_) | Command::Batch(_))
}

impl Modelled {
    /// What the model makes of a script, from the records that another script leaves.
    pub fn of(
        alloc: Global,
        geometry: Geometry,
        past: &[u8],
        script: &[u8],
        look: &[u8],
    ) -> Result<Modelled> {
        let mut model = PlainModel::new(alloc, geometry)?;
        do_script(&mut model, past, &mut Vec::new(alloc))?;
        let _ = model.step(&Command::Restart)?;
        let mut modelled = Modelled {
            said: Vec::new(alloc),
            ends: Vec::new(alloc),
            looks: Vec::new(alloc),
        };
        modelled.note(look_at(alloc, &mut model, look)?)?;
        for line in str::from_utf8(script)?.split('\n') {
            if let Line::Do(command) = parse(line.as_bytes()) {
                modelled.add(alloc, &mut model, &command, look)?;
            }
        }
        Ok(modelled)
    }

    /// Adds a command.
    fn add(
        &mut self,
        alloc: Global,
        model: &mut PlainModel,
        command: &Command,
        look: &[u8],
    ) -> Result<()> {
        do_command(model, command, &mut self.said)?;
        let records = if commits(command) {
            look_at(alloc, model, look)?
        } else {
            Vec::from_slice(alloc, self.look(usize::MAX))?
        };
        self.note(records)
    }

    /// Adds what is so after the commands so far.
    fn note(&mut self, look: Vec<u8>) -> Result<()> {
        self.ends.push(self.said.len())?;
        self.looks.push(look)?;
        Ok(())
    }

    /// All that is said.
    pub fn said(&self) -> &[u8] {
        self.said.as_slice()
    }

    /// What is said of so many commands.
    pub fn said_of(&self, commands: usize) -> &[u8] {
        let end = self.ends.get(commands).map_or(self.said.len(), |end| *end);
        self.said.get(..end).unwrap_or(&[])
    }

    /// How many commands are answered where so many bytes are said.
    pub fn answered(&self, said: usize) -> usize {
        let mut count = 0_usize;
        for end in self.ends.iter().skip(1) {
            if *end <= said {
                count = count.saturating_add(1);
            }
        }
        count
    }

    /// What a look at the records says after so many commands, or after all where there are fewer.
    pub fn look(&self, commands: usize) -> &[u8] {
        match self.looks.get(commands).or(self.looks.last()) {
            Some(look) => look.as_slice(),
            None => &[],
        }
    }
}
