//! How long the calls of the structures and of a journal take.
//!
//! A line tells the least time of a call over some rounds, and a sum over what the calls answered,
//! which another program for the same work must print too.
//!
//! | file | has |
//! |---|---|
//! | `src/words.rt` | what the program is asked to run |
//! | `src/row.rt` | what is timed |
//! | `src/timing.rt` | the least time of a round, and the line that tells it |
//! | `src/bitmaps.rt` | `plain_bits` |
//! | `src/indexes.rt` | `key_index` |
//! | `src/regions.rt` | `work_region` |
//! | `src/histories.rt` | `commit_history` |
//! | `src/pages.rt` | `record_page` and `segment` |
//! | `src/bodies.rt` | batches of `db_outside`, and digests |
//! | `src/appends.rt` | `gate_journal` |
#![tactic(auto)]

mod appends;
mod bitmaps;
mod bodies;
mod histories;
mod indexes;
mod pages;
mod regions;
mod row;
mod timing;
mod words;

use anyhow::Result;
use appends::time_appends;
use bitmaps::time_bitmaps;
use bodies::time_bodies;
use histories::{time_ats, time_pushes};
use indexes::time_indexes;
use pages::time_pages;
use regions::time_takes;
use row::{Kind, ROWS, Row};
use std::env;
use std::fs::File;
use std::process::ExitCode;
use std::rt::{Clock, Env, Files};
use words::{Words, words_of};

const USAGE: &str =
    "usage: benches ROUNDS | append PATH CALLS ROUNDS (CALLS and ROUNDS: 1 to 100000)";

fn time_row<R: Clock + Print + AllocGlobal>(rt: &R, row: &Row, rounds: u32) -> Result<()> {
    match row.kind {
        Kind::Xor | Kind::And | Kind::Or | Kind::Count => time_bitmaps(rt, row, rounds),
        Kind::Ascending | Kind::Change | Kind::Find => time_indexes(rt, row, rounds),
        Kind::Take => time_takes(rt, row, rounds),
        Kind::Push => time_pushes(rt, row, rounds),
        Kind::At => time_ats(rt, row, rounds),
        Kind::Page | Kind::WidePage | Kind::Segment | Kind::Extend => time_pages(rt, row, rounds),
        _ => time_bodies(rt, row, rounds),
    }
}

fn time_rows<R: Clock + Print + AllocGlobal>(rt: &R, rounds: u32) -> Result<()> {
    for (kind, work, size, unit, calls) in ROWS {
        let row = Row {
            kind,
            work,
            size,
            unit,
            calls,
        };
        time_row(rt, &row, rounds)?;
    }
    Ok(())
}

// Whether the words were some that the program knows.
fn run<R: Clock + Env + Files<File = File> + Print + AllocGlobal>(rt: &R) -> Result<bool> {
    let words: Vec<String> = env::args(rt)?.skip(1).collect(rt.alloc())?;
    match words_of(&words) {
        Words::None => println!(rt; "{USAGE}")?,
        Words::Rows { rounds } => time_rows(rt, rounds)?,
        Words::Append { calls, rounds } => match words.get(1) {
            None => return Ok(false),
            Some(path) => time_appends(rt, path, calls, rounds)?,
        },
        Words::Unknown => return Ok(false),
    }
    Ok(true)
}

fn main(rt: HostRuntime) -> ExitCode {
    match run(&rt) {
        Ok(true) => ExitCode::SUCCESS,
        Ok(false) => {
            let _ = eprintln!(rt; "{USAGE}");
            ExitCode::from(2)
        }
        Err(error) => {
            let _ = eprintln!(rt; "benches: {error}");
            ExitCode::from(1)
        }
    }
}
