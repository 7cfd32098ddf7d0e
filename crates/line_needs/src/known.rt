//! What the schema says of a line before any lock is looked at.
ghost use Rattle.std.specs.Prelude.{◌≡◌, ◌<◌, Some, length};
ghost use Rattle.line_needs.specs.Columns.{relation_named};
ghost use Rattle.line_needs.specs.Early.{relation_refusal, row_refusal, set_refusal, ask_refusal, join_refusal};
ghost use Rattle.line_needs.specs.Known.{of_named, with_named, both_named, refused_or, known_of, is_refusal};

use crate::columns::{SetColumns, resolve};
use crate::early::{first_refusal, inside_refusal, outside_refusal, terms_refusal};
use crate::misfits::{row_refusal, sets_misfit};
use db_value::{Fields, KeptFields, Name, Refusal, Schema, Term};
use stmt_text::{NamedSets, Stmt};

/// What the schema says of a statement: why it is refused before any lock is looked at, or what its
/// names stand for.
#[derive(Drop)]
pub enum Known {
    /// It is refused.
    Refused { why: Refusal },
    /// It names no relation.
    Plain,
    /// Its relation, which has the columns that it names.
    Of { relation: u8 },
    /// The relation of an update, and the columns that get new values.
    With { relation: u8, columns: SetColumns },
    /// The relations of a join, of which the first has the columns that it names.
    Both { left: u8, right: u8 },
}

impl Known {
    /// Is it refused?
    pub fn is_refused(&self) -> bool
        ensures { result ≡ is_refusal self.now }
    {
        match self {
            Known::Refused { .. } => true,
            _ => false,
        }
    }
}

// Of a statement that names no relation.
fn know_plain(why: Option<Refusal>) -> Known
    ensures { result ≡ refused_or why Known.Plain }
{
    match why {
        None => Known::Plain,
        Some(why) => Known::Refused { why },
    }
}

// No relation has this name.
fn no_relation(name: &Name) -> Known
    ensures { result ≡ Known.Refused (Refusal.NoRelation name.now) }
{
    Known::Refused {
        why: Refusal::NoRelation { relation: *name },
    }
}

// Of a statement on a relation.
fn know_relation(schema: &Schema, name: &Name) -> Known
    ensures { result
        ≡ refused_or (relation_refusal name.now (relation_named schema.now name.now))
        (of_named (relation_named schema.now name.now)) }
{
    match schema.relation(name) {
        None => no_relation(name),
        Some(relation) => Known::Of { relation },
    }
}

// Why the row of an insertion is refused, if it is.
fn kept_refusal(schema: &Schema, relation: u8, name: &Name, kept: &KeptFields) -> Option<Refusal>
    requires { relation < length schema.now }
    ensures { result ≡ row_refusal schema.now name.now kept.now (Some relation) }
{
    // Most rows meet the widths, and that is seen where they are packed.
    if kept.meets(&schema.widths(relation)) {
        return None;
    }
    let mut fields = Fields::blank();
    kept.read(&mut fields);
    row_refusal(schema, relation, name, &fields)
}

// Of an insertion, which has a value for each column that has its place there.
fn know_row(schema: &Schema, name: &Name, fields: &KeptFields) -> Known
    ensures { result ≡ refused_or
        (row_refusal schema.now name.now fields.now (relation_named schema.now name.now))
        (of_named (relation_named schema.now name.now)) }
{
    match schema.relation(name) {
        None => no_relation(name),
        Some(relation) => match kept_refusal(schema, relation, name, fields) {
            None => Known::Of { relation },
            Some(why) => Known::Refused { why },
        },
    }
}

// Of an update, with the columns' numbers in place of their names.
fn know_sets(schema: &Schema, name: &Name, sets: &NamedSets) -> Known
    ensures { result ≡ refused_or
        (set_refusal schema.now name.now sets.now (relation_named schema.now name.now))
        (with_named schema.now sets.now (relation_named schema.now name.now)) }
{
    match schema.relation(name) {
        None => no_relation(name),
        Some(relation) => match resolve(schema, relation, sets) {
            Err(column) => Known::Refused {
                why: Refusal::NoColumn { column },
            },
            Ok(columns) => match sets_misfit(schema, relation, sets.as_slice()) {
                None => Known::With { relation, columns },
                Some(why) => Known::Refused { why },
            },
        },
    }
}

// Of a statement with a condition.
fn know_asked(schema: &Schema, name: &Name, terms: &[Term]) -> Known
    ensures { result ≡ refused_or
        (ask_refusal schema.now name.now terms.now (relation_named schema.now name.now))
        (of_named (relation_named schema.now name.now)) }
{
    match schema.relation(name) {
        None => no_relation(name),
        Some(relation) => match terms_refusal(schema, relation, terms) {
            None => Known::Of { relation },
            Some(why) => Known::Refused { why },
        },
    }
}

// Of a join, whose condition is on the first relation.
fn know_both(schema: &Schema, left: &Name, right: &Name, terms: &[Term]) -> Known
    ensures { result ≡ refused_or
        (join_refusal schema.now left.now right.now terms.now (relation_named schema.now left.now)
        (relation_named schema.now right.now))
        (both_named (relation_named schema.now left.now) (relation_named schema.now right.now)) }
{
    let Some(first) = schema.relation(left) else {
        return no_relation(left);
    };
    match schema.relation(right) {
        None => no_relation(right),
        Some(second) => match terms_refusal(schema, first, terms) {
            None => Known::Both {
                left: first,
                right: second,
            },
            Some(why) => Known::Refused { why },
        },
    }
}

/// What is known of a statement whose transaction was begun or not, and has changed something or not.
/// It takes no memory.
pub fn know(schema: &Schema, begun: bool, changed: bool, stmt: &Stmt) -> Known
    ensures { result ≡ known_of schema.now begun changed stmt.now }
{
    match stmt {
        Stmt::Begin { .. } => know_plain(outside_refusal(begun)),
        Stmt::Commit => know_plain(inside_refusal(begun)),
        Stmt::Abort => know_plain(inside_refusal(begun)),
        Stmt::On { .. } => know_plain(outside_refusal(begun)),
        Stmt::LogOf { .. } => Known::Plain,
        Stmt::Graph => Known::Plain,
        Stmt::Segments => Known::Plain,
        Stmt::Checkpoint => know_plain(outside_refusal(begun)),
        Stmt::Branch { .. } => know_plain(outside_refusal(begun)),
        Stmt::Merge { .. } => know_plain(first_refusal(changed)),
        Stmt::Insert {
            relation,
            fields,
            ..
        } => know_row(schema, relation, fields),
        Stmt::Update { relation, sets, .. } => know_sets(schema, relation, sets),
        Stmt::Delete { relation, .. } => know_relation(schema, relation),
        Stmt::Get { relation, .. } => know_relation(schema, relation),
        Stmt::Scan {
            relation,
            terms,
            ..
        } => know_asked(schema, relation, terms.as_slice()),
        Stmt::Join {
            left,
            right,
            terms,
            ..
        } => know_both(schema, left, right, terms.as_slice()),
        Stmt::Minus { relation, .. } => know_relation(schema, relation),
    }
}
