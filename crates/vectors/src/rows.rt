//! A row, and what comes of it.
use crate::ends::ends_row;
use crate::headers::{base_row, data_row, erases_row, log_row, overflow_row, status_row};
use crate::log_rows::records_row;
use crate::pages::{page_row, slots_row};
use crate::rooms::room_row;
use crate::scripts::{do_row, each_row, home_row, line_row, run_row};
use crate::sectors::{decode_row, encode_row, seal_row};
use crate::sums::sum_row;
use crate::trials::trial_row;
use crate::views::view_row;
use crate::word_rows::words_row;
use crate::words::{geometry_of, parted};
use anyhow::{Result, bail};
use ipl_model::PlainModel;
use std::alloc::Global;

/// The model that scripts begin with, over five places.
pub fn first_model(alloc: Global) -> Result<PlainModel> {
    Ok(PlainModel::new(alloc, geometry_of("5")?)?)
}

/// What comes of a row.
pub fn answer(alloc: Global, model: &mut PlainModel, line: &str) -> Result<String> {
    if line.is_empty() || line.starts_with('#') {
        return Ok(String::from_str(alloc, line)?);
    }
    let (verb, rest) = parted(line);
    match verb {
        "run" => run_row(alloc, model, rest),
        "do" => do_row(alloc, model, rest),
        "each" => each_row(alloc, model, rest),
        "line" => line_row(alloc, model, rest),
        _ => plain_answer(alloc, verb, rest),
    }
}

/// What comes of a row that looks at no model.
fn plain_answer(alloc: Global, verb: &str, rest: &str) -> Result<String> {
    match verb {
        "view" => view_row(alloc, rest),
        "trial" => trial_row(alloc, rest),
        "words" => words_row(alloc, rest),
        "end" => ends_row(alloc, rest),
        "home" => home_row(alloc, rest),
        _ => format_answer(alloc, verb, rest),
    }
}

/// What comes of a row of bytes.
fn format_answer(alloc: Global, verb: &str, rest: &str) -> Result<String> {
    match verb {
        "sum" => sum_row(alloc, rest),
        "decode" => decode_row(alloc, rest),
        "seal" => seal_row(alloc, rest),
        "encode" => encode_row(alloc, rest),
        "page" => page_row(alloc, rest),
        "slots" => slots_row(alloc, rest),
        "records" => records_row(alloc, rest),
        "room" => room_row(alloc, rest),
        "data" => data_row(alloc, rest),
        "status" => status_row(alloc, rest),
        "overflow" => overflow_row(alloc, rest),
        "erases" => erases_row(alloc, rest),
        "base" => base_row(alloc, rest),
        "log" => log_row(alloc, rest),
        _ => bail!("no verb {verb}"),
    }
}
