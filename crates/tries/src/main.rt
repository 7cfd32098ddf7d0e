//! What tests compare the program with, and what they refuse memory.
//!
//! | file | has |
//! |---|---|
//! | `src/plain.rt` | `plain`: a script over whole tables, beside `decibel try` over segments |
//! | `src/images.rt` | `image`: what is answered to an image with a byte changed, beside a second reader |
//! | `src/changes.rt` | `changes`: changes of working tables, for which memory is refused |
#![tactic(auto)]

mod changes;
mod images;
mod plain;

use anyhow::{Result, ensure};
use changes::try_changes;
use db_outside::{Sink, Source};
use db_realdev::{RealSink, RealSource};
use images::try_image;
use plain::try_plain;
use std::env;
use std::fs::File;
use std::process::ExitCode;
use std::rt::{Env, Files};

const USAGE: &str = "usage: tries plain | changes | image IMAGE ANSWERS";

// What the program is asked to try. The paths of its files are the second and the third word.
enum Words {
    Plain,
    Changes,
    Image,
    Unknown,
}

fn words_of(words: &[String]) -> Words {
    match words {
        [name] if name.as_str() == "plain" => Words::Plain,
        [name] if name.as_str() == "changes" => Words::Changes,
        [name, _, _] if name.as_str() == "image" => Words::Image,
        _ => Words::Unknown,
    }
}

// Whether the words were some that the program knows.
fn try_words<R: Files<File = File> + Print + AllocGlobal, S: Source, K: Sink>(
    rt: &R,
    words: &[String],
    source: &mut S,
    sink: &mut K,
) -> Result<bool> {
    match words_of(words) {
        Words::Plain => ensure!(
            try_plain(rt.alloc(), source, sink),
            "the script did not end"
        ),
        Words::Changes => try_changes(rt)?,
        Words::Image => match words {
            [_, from, to] => try_image(rt, from, to)?,
            _ => return Ok(false),
        },
        Words::Unknown => return Ok(false),
    }
    Ok(true)
}

fn run<R: Env + Files<File = File> + Print + AllocGlobal, S: Source, K: Sink>(
    rt: &R,
    source: &mut S,
    sink: &mut K,
) -> Result<bool> {
    let words: Vec<String> = env::args(rt)?.skip(1).collect(rt.alloc())?;
    try_words(rt, &words, source, sink)
}

fn main(rt: HostRuntime) -> ExitCode {
    let mut source = RealSource::new(rt.stdin());
    let mut sink = RealSink::new(rt.stdout());
    match run(&rt, &mut source, &mut sink) {
        Ok(true) => ExitCode::SUCCESS,
        Ok(false) => {
            let _ = eprintln!(rt; "{USAGE}");
            ExitCode::from(2)
        }
        Err(error) => {
            let _ = eprintln!(rt; "tries: {error}");
            ExitCode::from(1)
        }
    }
}
