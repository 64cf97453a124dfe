//! Scenes: what the next run begins with, and the last run.
use crate::compared::Tried;
use crate::cuts::cuts;
use crate::ends::Ended;
use crate::fails::fails;
use crate::modelled::Modelled;
use crate::runs::{Failing, Start, copied, ends, looked};
use crate::scripts::script_of;
use crate::sectors::{alter, sector, write};
use crate::stories::{erases, events_before_header, headers, headers_of, last, reads, story};
use crate::streams::{unheards, unsaids};
use crate::words::{number, numbers_of, parted, text_of, words_of};
use anyhow::{Context, Result, bail};
use chip_mem::MemChip;
use chip_trait::Chip;
use ipl_base::Geometry;
use ipl_cli::FailingSay;
use std::alloc::Global;

/// Room for the events of a run.
const ROOM: u64 = 8000;

/// What is known of a chip: how many of its places are spare, and a script whose records it has, where
/// these are those of one.
#[derive(Drop)]
struct Known {
    spares: u32,
    past: Option<Vec<u8>>,
}

/// A run, what was known of its chip, how it ended, and whether other words were run over its desk since,
/// so that it isn't known any more whose records there are.
#[derive(Drop)]
struct Run {
    start: Start,
    known: Known,
    ended: Ended,
    went_on: bool,
}

/// What the next run begins with, the script by which records are looked at, and the last run.
#[derive(Drop)]
pub struct Scenes {
    chip: MemChip,
    known: Known,
    worn: Vec<u32>,
    pieces: Vec<u32>,
    look: Vec<u8>,
    run: Option<Run>,
}

/// A blank chip of so many places, with room for the events of a run, or for so many.
fn blank(alloc: Global, rest: &str) -> Result<MemChip> {
    let (places, room) = parted(rest);
    let room = if room.is_empty() {
        ROOM
    } else {
        u64::from(number(room)?)
    };
    Ok(MemChip::new(alloc, number(places)?, room)?)
}

/// The number of places to spare that words name.
fn spares_in(words: &str) -> Result<u32> {
    match words.split_once("--spares ") {
        Some((_, behind)) => number(parted(behind).0),
        None => Ok(0),
    }
}

impl Known {
    /// The same again.
    fn copy(&self, alloc: Global) -> Result<Known> {
        let past = match &self.past {
            Some(past) => Some(Vec::from_slice(alloc, past)?),
            None => None,
        };
        Ok(Known {
            spares: self.spares,
            past,
        })
    }

    /// Nothing but how many places are spare.
    fn nothing(spares: u32) -> Known {
        Known { spares, past: None }
    }
}

impl Run {
    /// What was known of the chip once the words had formatted it, where they do.
    fn began(&self, alloc: Global) -> Result<Known> {
        if self.went_on {
            return Ok(Known::nothing(self.known.spares));
        }
        if !self.start.formats() {
            return self.known.copy(alloc);
        }
        Ok(Known {
            spares: spares_in(self.start.words.as_str())?,
            past: Some(Vec::new(alloc)),
        })
    }

    /// What is known of the chip that the run left.
    fn left(&self, alloc: Global) -> Result<Known> {
        let Known { spares, past } = self.began(alloc)?;
        let Some(mut past) = past else {
            return Ok(Known::nothing(spares));
        };
        let words = self.start.words.as_str();
        if self.ended.status != 0 || words.starts_with("trial") || words.starts_with("keys") {
            return Ok(Known::nothing(spares));
        }
        if words.starts_with("run") || self.start.goes_on() {
            past.extend_from_slice(&self.start.script)?;
            past.extend_from_slice(b"\nrestart\n")?;
        }
        Ok(Known {
            spares,
            past: Some(past),
        })
    }

    /// What the model makes of the script.
    fn modelled(&self, alloc: Global, look: &[u8]) -> Result<Modelled> {
        let known = self.began(alloc)?;
        let past = known.past.context("no model of this chip")?;
        let places = self.start.chip.units();
        let geometry = Geometry::spared(places, known.spares).context("no geometry")?;
        Modelled::of(alloc, geometry, &past, &self.start.script, look)
    }

    /// The same run, where this fails, which is the last run then; and what is looked at on the chip
    /// that it leaves.
    fn fail(&mut self, alloc: Global, failing: Failing, look: &[u8]) -> Result<String> {
        self.ended = self.start.run(alloc, failing)?;
        self.went_on = false;
        let left = looked(alloc, copied(alloc, self.ended.desk.chip())?, look)?;
        let end = self.ended.text(alloc)?;
        let records = left.text(alloc)?;
        Ok(format!(in alloc; "{end}; then {records}")?)
    }

    /// The same run over the chip as it was, but for a sector.
    fn with(&self, alloc: Global, words: &[&str]) -> Result<String> {
        let mut chip = copied(alloc, &self.start.chip)?;
        write(alloc, &mut chip, words)?;
        let start = Start {
            chip,
            worn: Vec::from_slice(alloc, &self.start.worn)?,
            pieces: Vec::from_slice(alloc, &self.start.pieces)?,
            words: text_of(alloc, self.start.words.as_str())?,
            script: Vec::from_slice(alloc, &self.start.script)?,
        };
        start.run(alloc, Failing::Nothing)?.text(alloc)
    }
}

/// What fails by a verb and the numbers behind it.
fn failing_of(verb: &str, rest: &str) -> Result<Failing> {
    let (count, kept) = parted(rest);
    let count = u64::from(number(count)?);
    match verb {
        "fail" => Ok(Failing::Call(count)),
        "unheard" => Ok(Failing::Read(count)),
        _ => Ok(Failing::Saying(FailingSay {
            number: count,
            kept: number(kept)?,
        })),
    }
}

/// How many events a number of them is; with a minus sign it is counted from the end.
fn first_of(word: &str, count: usize) -> Result<usize> {
    match word.strip_prefix('-') {
        Some(back) => Ok(count.saturating_sub(number(back)? as usize)),
        None => Ok(number(word)? as usize),
    }
}

impl Scenes {
    /// A blank chip of five places.
    pub fn new(alloc: Global) -> Result<Scenes> {
        Ok(Scenes {
            chip: MemChip::new(alloc, 5, ROOM)?,
            known: Known::nothing(0),
            worn: Vec::new(alloc),
            pieces: Vec::new(alloc),
            look: script_of(alloc, "list 0 99/")?,
            run: None,
        })
    }

    /// What comes of a line.
    pub fn answer(&mut self, alloc: Global, line: &str) -> Result<String> {
        if line.is_empty() || line.starts_with('#') {
            return text_of(alloc, "");
        }
        let (verb, rest) = parted(line);
        match verb {
            "run" | "format" | "serial" | "check" | "trial" | "calls" | "keys" => {
                self.run(alloc, line)
            }
            "ipl" => self.run(alloc, rest),
            "then" => self.then(alloc, rest),
            "chip" | "next" | "stop" | "wear" | "pieces" | "look" | "alter" | "write" => {
                self.set(alloc, verb, rest)?;
                text_of(alloc, "")
            }
            "fail" | "unheard" | "unsaid" => self.fail(alloc, verb, rest),
            _ => self.look_at(alloc, verb, rest),
        }
    }

    /// Sets what the next run begins with.
    fn set(&mut self, alloc: Global, verb: &str, rest: &str) -> Result<()> {
        match verb {
            "chip" => {
                self.chip = blank(alloc, rest)?;
                self.known = Known::nothing(0);
                self.worn = Vec::new(alloc);
            }
            "next" | "stop" => self.go_on(alloc, verb, rest)?,
            "wear" => self.worn = numbers_of(alloc, rest)?,
            "pieces" => self.pieces = numbers_of(alloc, rest)?,
            "look" => self.look = script_of(alloc, rest)?,
            "alter" => {
                alter(&mut self.chip, &words_of(alloc, rest)?)?;
                self.known = Known::nothing(self.known.spares);
            }
            _ => {
                write(alloc, &mut self.chip, &words_of(alloc, rest)?)?;
                self.known = Known::nothing(self.known.spares);
            }
        }
        Ok(())
    }

    /// Runs the words before a line's stroke on the script behind it.
    fn run(&mut self, alloc: Global, line: &str) -> Result<String> {
        let (words, script) = line.split_once(" | ").unwrap_or((line, ""));
        let start = Start {
            chip: copied(alloc, &self.chip)?,
            worn: Vec::from_slice(alloc, &self.worn)?,
            pieces: Vec::from_slice(alloc, &self.pieces)?,
            words: text_of(alloc, words)?,
            script: script_of(alloc, script)?,
        };
        let ended = start.run(alloc, Failing::Nothing)?;
        let text = ended.text(alloc)?;
        let known = self.known.copy(alloc)?;
        self.run = Some(Run {
            start,
            known,
            ended,
            went_on: false,
        });
        Ok(text)
    }

    /// Runs words over the same desk.
    fn then(&mut self, alloc: Global, words: &str) -> Result<String> {
        match &mut self.run {
            Some(run) => {
                run.ended.status = ends(alloc, words, &mut run.ended.desk)?;
                run.went_on = true;
                run.ended.text(alloc)
            }
            None => bail!("no run"),
        }
    }

    /// Does the last run again, where a call, a read or a saying fails.
    fn fail(&mut self, alloc: Global, verb: &str, rest: &str) -> Result<String> {
        let failing = failing_of(verb, rest)?;
        match &mut self.run {
            Some(run) => run.fail(alloc, failing, &self.look),
            None => bail!("no run"),
        }
    }

    /// Goes on with a chip of the last run.
    fn go_on(&mut self, alloc: Global, verb: &str, rest: &str) -> Result<()> {
        let Some(run) = &self.run else {
            bail!("no run");
        };
        let chip = run.ended.desk.chip();
        if verb == "next" {
            self.chip = copied(alloc, chip)?;
            self.known = run.left(alloc)?;
        } else {
            let at = events_before_header(chip.events(), number(rest)?);
            self.chip = chip.image(alloc, at as u64, &[])?;
            self.known = Known::nothing(self.known.spares);
        }
        Ok(())
    }

    /// What comes of a line that looks at the last run.
    fn look_at(&self, alloc: Global, verb: &str, rest: &str) -> Result<String> {
        let Some(run) = &self.run else {
            bail!("no run");
        };
        let words = words_of(alloc, rest)?;
        match verb {
            "with" => run.with(alloc, &words),
            "cuts" | "fails" | "unheards" | "unsaids" => self.compare(alloc, run, verb, &words),
            _ => asked(alloc, &run.ended, verb, &words),
        }
    }

    /// Compares the last run with the model, at many moments.
    fn compare(&self, alloc: Global, run: &Run, verb: &str, words: &[&str]) -> Result<String> {
        let model = run.modelled(alloc, &self.look)?;
        let tried = Tried {
            start: &run.start,
            whole: run.ended.desk.chip(),
            model: &model,
            look: &self.look,
        };
        let count = tried.events().len();
        match (verb, words) {
            ("unheards", _) => unheards(alloc, &tried),
            ("unsaids", _) => unsaids(alloc, &tried),
            ("fails", [first]) => fails(alloc, &tried, first_of(*first, count)?),
            ("cuts", [first, step, twice @ ..]) => {
                let step = number(*step)? as usize;
                let first = first_of(*first, count)?;
                cuts(alloc, &tried, first, step, !twice.is_empty())
            }
            _ => bail!("no first event"),
        }
    }
}

/// What a run asked of its chip, and what it left.
fn asked(alloc: Global, ended: &Ended, verb: &str, words: &[&str]) -> Result<String> {
    let chip = ended.desk.chip();
    match (verb, words) {
        ("story", _) => story(alloc, chip.events()),
        ("last", _) => last(alloc, chip.events()),
        ("reads", _) => reads(alloc, chip.events()),
        ("erases", _) => erases(alloc, chip.events()),
        ("headers", [kind]) => headers_of(alloc, chip.events(), *kind),
        ("headers", _) => headers(alloc, chip.events()),
        ("sector", _) => sector(alloc, &mut copied(alloc, chip)?, words),
        _ => bail!("no verb {verb}"),
    }
}
