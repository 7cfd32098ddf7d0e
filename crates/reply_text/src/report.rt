//! The lines of a log, of a graph and of the segments.
ghost use Rattle.std.specs.Prelude.{◌≡◌, ◌++◌, OnOk};
ghost use Rattle.std.specs.List.{flat_map, count_by};
ghost use Rattle.reply_text.specs.Report.{second_text, told_text, log_text, is_version, log_end, live_text, next_live, lives_text, head_text, segment_text};

use crate::writer::Writer;
use db_value::{LayoutLine, Live, LogLine, Name, VersionName};
use std::alloc::AllocError;

fn write_second(out: &mut Writer, second: &Option<VersionName>) -> Result<(), AllocError>
    ensures { OnOk result (out.new ≡ out.old ++ second_text second.now) }
{
    match second {
        None => Ok(()),
        Some(version) => {
            out.text(b" and ")?;
            out.version(version)
        }
    }
}

fn write_told(out: &mut Writer, line: &LogLine) -> Result<(), AllocError>
    ensures { OnOk result (out.new ≡ out.old ++ told_text line.now) }
{
    match line {
        LogLine::Root => out.text(b"master@0 root"),
        LogLine::Same { branch, origin } => {
            out.place(branch, Some(0))?;
            out.text(b" is ")?;
            out.version(origin)
        }
        LogLine::Made { at, first, second } => {
            out.version(at)?;
            out.text(b" of ")?;
            out.version(first)?;
            write_second(out, second)
        }
    }
}

fn write_log_line(out: &mut Writer, line: &LogLine) -> Result<(), AllocError>
    ensures { OnOk result (out.new ≡ out.old ++ log_text line.now) }
{
    write_told(out, line)?;
    out.end_line()
}

fn is_told(line: &LogLine) -> bool
    ensures { result ≡ is_version line.now }
{
    match line {
        LogLine::Same { .. } => false,
        LogLine::Root | LogLine::Made { .. } => true,
    }
}

fn versions_in(lines: &[LogLine]) -> usize
    ensures { result ≡ count_by is_version lines.now }
{
    lines.iter().filter(|line| is_told(line)).count()
}

/// The lines of versions.
pub fn write_log(out: &mut Writer, lines: &[LogLine]) -> Result<(), AllocError>
    ensures { OnOk result (out.new ≡ out.old ++ flat_map log_text lines.now) }
{
    for line in lines {
        write_log_line(out, line)?;
    }
    Ok(())
}

/// The last line of a log, or of the whole graph.
pub fn write_log_end(out: &mut Writer, lines: &[LogLine], whole: bool) -> Result<(), AllocError>
    ensures { OnOk result (out.new ≡ out.old ++ log_end lines.now whole) }
{
    if whole {
        out.count(b"versions", versions_in(lines))
    } else {
        out.count(b"positions", lines.len())
    }
}

fn write_live(out: &mut Writer, live: &Live) -> Result<(), AllocError>
    ensures { OnOk result (out.new ≡ out.old ++ live_text live.now) }
{
    out.name(&live.branch)?;
    out.text(b"=")?;
    out.number(u64::from(live.bits))
}

fn write_next_lives(out: &mut Writer, lives: &[Live]) -> Result<(), AllocError>
    ensures { OnOk result (out.new ≡ out.old ++ flat_map next_live lives.now) }
{
    for live in lives {
        out.text(b",")?;
        write_live(out, live)?;
    }
    Ok(())
}

fn write_lives(out: &mut Writer, lives: &[Live]) -> Result<(), AllocError>
    ensures { OnOk result (out.new ≡ out.old ++ lives_text lives.now) }
{
    match lives {
        [] => Ok(()),
        [first, others @ ..] => {
            write_live(out, first)?;
            write_next_lives(out, others)
        }
    }
}

fn write_head(out: &mut Writer, head: &Option<Name>) -> Result<(), AllocError>
    ensures { OnOk result (out.new ≡ out.old ++ head_text head.now) }
{
    match head {
        None => out.text(b" internal"),
        Some(branch) => {
            out.text(b" head ")?;
            out.name(branch)
        }
    }
}

fn write_segment(out: &mut Writer, segment: &LayoutLine) -> Result<(), AllocError>
    ensures { OnOk result (out.new ≡ out.old ++ segment_text segment.now) }
{
    out.text(b"segment ")?;
    out.numbered(segment.relation.as_bytes(), u64::from(segment.index))?;
    write_head(out, &segment.head)?;
    out.text(b" records ")?;
    out.number(u64::from(segment.records))?;
    out.text(b" live ")?;
    write_lives(out, segment.live.as_slice())?;
    out.end_line()
}

/// The lines of segments.
pub fn write_segments(out: &mut Writer, segments: &[LayoutLine]) -> Result<(), AllocError>
    ensures { OnOk result (out.new ≡ out.old ++ flat_map segment_text segments.now) }
{
    for segment in segments {
        write_segment(out, segment)?;
    }
    Ok(())
}
