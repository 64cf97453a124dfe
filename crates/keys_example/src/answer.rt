//! The line that is answered.
use anyhow::{Result, bail};
use ipl_base::StoreFault;
use ipl_keys::KeyFault;
use ipl_model::Reply;
use script_text::{TextLine, print};
use std::io::Write;

/// Says what came of a command. A fault of the chip is no answer, and ends the run.
pub fn say<W: Write>(out: &mut W, answer: &Result<Reply, KeyFault>) -> Result<()> {
    match answer {
        Ok(Reply::Value(value)) => {
            // `ipl` says it in hex digits, and here it is text.
            out.write_all(b"value ")?;
            out.write_all(value.bytes())?;
            out.write_all(b"\n")?;
        }
        Ok(reply) => say_reply(out, reply)?,
        Err(KeyFault::Store(StoreFault::Refused(refusal))) => {
            say_reply(out, &Reply::Refused(*refusal))?;
        }
        Err(KeyFault::Store(fault)) => bail!("{fault}"),
        Err(KeyFault::BadKey) => writeln!(out, "err 17 badkey")?,
        Err(KeyFault::LongValue) => writeln!(out, "err 18 longvalue")?,
        Err(KeyFault::BucketFull(name)) => writeln!(out, "err 19 bucketfull {name}")?,
        Err(KeyFault::BadBucket(name)) => writeln!(out, "err 20 badbucket {name}")?,
    }
    Ok(())
}

/// Says a reply as `ipl` says it.
fn say_reply<W: Write>(out: &mut W, reply: &Reply) -> Result<()> {
    let mut line = TextLine::empty();
    print(reply, &mut line);
    out.write_all(line.bytes())?;
    Ok(())
}
