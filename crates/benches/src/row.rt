//! What is timed.

/// The call that is timed.
#[derive(Clone, Copy)]
pub enum Kind {
    Xor,
    And,
    Or,
    Count,
    Ascending,
    Change,
    Find,
    Take,
    Push,
    At,
    Page,
    WidePage,
    Segment,
    Extend,
    Batch,
    Digest,
    Append,
}

/// A work of a size in units, of which a round has so many calls.
#[derive(Drop)]
pub struct Row {
    pub kind: Kind,
    pub work: &'static str,
    pub size: u32,
    pub unit: &'static str,
    pub calls: u32,
}

/// All that is timed in memory: the parts of a row.
#[rattlefmt::skip]
pub const ROWS: [(Kind, &str, u32, &str, u32); 17] = [
    (Kind::Xor,       "plain_bits xor_into",                262_144, "bits",    1_000),
    (Kind::And,       "plain_bits and",                     262_144, "bits",    1_000),
    (Kind::Or,        "plain_bits or",                      262_144, "bits",    1_000),
    (Kind::Count,     "plain_bits count",                   262_144, "bits",    1_000),
    (Kind::Ascending, "key_index ascending change by 1024",  65_536, "keys",    65_536),
    (Kind::Ascending, "key_index ascending change by 1024", 262_144, "keys",    262_144),
    (Kind::Change,    "key_index one change",               262_144, "keys",    256),
    (Kind::Find,      "key_index find",                     262_144, "keys",    262_144),
    (Kind::Take,      "work_region take [u64; 17]",          65_536, "frames",  1),
    (Kind::Push,      "commit_history push",                 10_000, "deltas",  10_000),
    (Kind::At,        "commit_history at",                   10_000, "deltas",  16),
    (Kind::Page,      "record_page read 2 fields",              170, "records", 1_000),
    (Kind::WidePage,  "record_page read 15 fields",              31, "records", 1_000),
    (Kind::Segment,   "segment read",                       262_144, "records", 262_144),
    (Kind::Extend,    "segment extended",                   262_144, "records", 256),
    (Kind::Batch,     "a batch of one body",                 65_536, "bytes",   1),
    (Kind::Digest,    "its digest alone",                    65_536, "bytes",   1),
];
