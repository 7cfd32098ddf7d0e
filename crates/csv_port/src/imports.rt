//! The rows of a text, inserted in one transaction of session 1.
ghost use Rattle.std.specs.Prelude.{◌≡◌, ◌≤◌, ◌<◌, true, Ok, IfOk, IfErr, IfSome, OnOk, OnErr, length};
ghost use Rattle.db_value.specs.Text.{is_name};
ghost use Rattle.db_core.specs.Order.{opening};
ghost use Rattle.db_core.specs.Cores.{StandsIn, InEach, StaysIn};
ghost use Rattle.csv_port.specs.Lines.{import_lines, insert_row, ReadsAs};
ghost use Rattle.csv_port.specs.Import.{import_told, lines_told, stop_by, told_by, told_of, widths_named, Tells};
ghost use Rattle.csv_port.specs.Ran.{RanStmt, RunsToEnd, RunsFirst, StopsAs};
ghost use Rattle.csv_port.specs.Laws.{CanImport};

use crate::rows::{MOST_ROWS, read_rows};
use crate::stop::ImportStop;
use db_core::Core;
use db_store::Store;
use db_value::{KeptFields, Name, Record, Records, Refusal, Reply, Schema, Widths};
use entry_codec::Log;
use std::alloc::{AllocError, Global};
use stmt_text::{Line, Stmt};

/// The session of an import.
const IMPORTER: u32 = 1;

/// What an import did: how many rows it inserted, and the position of the version of master that it
/// made. Without rows it made none.
#[derive(Clone, Copy)]
pub struct Imported {
    pub rows: u32,
    pub position: Option<u32>,
}

// Runs a statement of the import.
fn run_stmt<St: Store, J: Log<St>>(core: &mut Core<St, J>, stmt: Stmt) -> Result<Reply, AllocError>
    requires { ReadsAs stmt }
    ensures ran { IfOk result (λ r. InEach core.old.kept
        (λ w. RanStmt J.Log w core.old core.new stmt r)) }
    ensures err { OnErr result (StaysIn core.old core.new) }
{
    let line = Line {
        session: IMPORTER,
        stmt,
    };
    let reply = core.answer(&line)?;
    Ok(reply)
}

// Inserts a row.
fn run_insert<St: Store, J: Log<St>>(
    alloc: Global,
    core: &mut Core<St, J>,
    relation: &Name,
    row: &Record,
) -> Result<Reply, AllocError>
    requires { ReadsAs (insert_row relation.now row.now) }
    ensures ran { IfOk result (λ r. InEach core.old.kept
        (λ w. RanStmt J.Log w core.old core.new (insert_row relation.now row.now) r)) }
    ensures err { OnErr result (StaysIn core.old core.new) }
{
    let fields = KeptFields::of(alloc, &row.fields)?;
    let stmt = Stmt::Insert {
        relation: *relation,
        key: row.key,
        fields,
    };
    let reply = run_stmt(core, stmt)?;
    Ok(reply)
}

// Why the import stops at a row, by the reply to its insert.
fn stop_by(row: u64, reply: &Reply) -> Option<ImportStop>
    ensures { result ≡ stop_by row reply.now }
{
    match reply {
        Reply::Refused { why } => match why {
            Refusal::KeyThere { .. } => Some(ImportStop::KeyThere { row }),
            Refusal::TableFull { .. } => Some(ImportStop::Full { row }),
            Refusal::VersionsFull { .. } => Some(ImportStop::Full { row }),
            Refusal::BodyFull => Some(ImportStop::Full { row }),
            _ => None,
        },
        _ => None,
    }
}

// What the reply to the commit tells of so many rows.
fn told_by(rows: u32, reply: &Reply) -> Result<Imported, ImportStop>
    ensures { result ≡ told_by rows reply.now }
{
    match reply {
        Reply::Made { position, .. } => Ok(Imported {
            rows,
            position: Some(*position),
        }),
        Reply::Refused {
            why: Refusal::FaultDisk,
        } => Err(ImportStop::DiskFault),
        _ => Ok(Imported {
            rows,
            position: None,
        }),
    }
}

// Inserts rows, of which there is one at least. They are let go before the commit, which takes the most memory.
fn import_rows<St: Store, J: Log<St>>(
    alloc: Global,
    core: &mut Core<St, J>,
    relation: &Name,
    rows: Records,
) -> Result<Imported, ImportStop>
    requires can { CanImport core.old.kept relation.now rows }
    requires some { 0 < length rows }
    ensures told { Tells (told_of core.old.kept.state relation.now rows) result }
    ensures first { RunsFirst J.Log (opening core.old.kept.state) core.old core.new
        (import_lines relation.now rows) }
    ensures all { OnOk result (RunsToEnd J.Log (opening core.old.kept.state) core.old core.new
        (import_lines relation.now rows)) }
    ensures stops { IfErr result (StopsAs J.faults core.old core.new) }
{
    let room = MOST_ROWS as u32;
    run_stmt(core, Stmt::Begin { room: Some(room) })?;
    let mut row = Record::blank();
    let count = rows.len();
    for at in 0..count {
        rows.read(at, &mut row);
        let reply = run_insert(alloc, core, relation, &row)?;
        match stop_by(at as u64 + 1, &reply) {
            Some(stop) => return Err(stop),
            None => {}
        }
    }
    drop(rows);
    let reply = run_stmt(core, Stmt::Commit)?;
    told_by(count as u32, &reply)
}

// The widths of a relation's columns.
fn widths_of(schema: &Schema, relation: &Name) -> Option<Widths>
    ensures value { result ≡ widths_named schema.now relation.now }
    ensures within { IfSome result (λ ws. (0 < length ws) × (length ws ≤ 15)) }
{
    match schema.relation(relation) {
        None => None,
        Some(at) => Some(schema.widths(at)),
    }
}

/// Imports the rows of a text into a relation of master, as session 1 of a core without lines. All rows
/// are read before the first is inserted. A row that isn't inserted stops the import: the dataset is as
/// before, and the log wasn't called.
pub fn import<St: Store, J: Log<St>>(
    alloc: Global,
    core: &mut Core<St, J>,
    relation: &Name,
    text: &[u8],
) -> Result<Imported, ImportStop>
    requires fresh { StandsIn (opening core.old.kept.state) core.old.kept }
    requires named { is_name relation.now ≡ true }
    ensures told { Tells (import_told core.old.kept.state relation.now text.now) result }
    ensures first { RunsFirst J.Log (opening core.old.kept.state) core.old core.new
        (lines_told core.old.kept.state relation.now text.now) }
    ensures all { OnOk result (RunsToEnd J.Log (opening core.old.kept.state) core.old core.new
        (lines_told core.old.kept.state relation.now text.now)) }
    ensures stops { IfErr result (StopsAs J.faults core.old core.new) }
{
    let Some(widths) = widths_of(core.schema(), relation) else {
        return Err(ImportStop::NoRelation);
    };
    match read_rows(alloc, &widths, text) {
        Err(stop) => Err(stop),
        Ok(rows) => {
            if rows.len() == 0 {
                return Ok(Imported {
                    rows: 0,
                    position: None,
                });
            }
            import_rows(alloc, core, relation, rows)
        }
    }
}
