//! Refusals of statements.
ghost use Rattle.std.specs.Prelude.{◌≡◌};
ghost use Rattle.branch_tx.specs.Stops.{refusal_of};

use db_store::WorkStop;
use db_value::{Name, Refusal, Reply};
use line_needs::Known;

/// The reply that refuses a statement.
pub fn refused(why: Refusal) -> Reply
    ensures { result ≡ Reply.Refused why }
{
    Reply::Refused { why }
}

/// The reply to a statement that is known to be refused.
pub fn refused_by(known: &Known) -> Reply
    ensures { (why : Refusal) → known.now ≡ Known.Refused why → result ≡ Reply.Refused why }
{
    match known {
        Known::Refused { why } => refused(*why),
        _ => refused(Refusal::Line),
    }
}

/// 16: the branch has as many versions as it can have.
pub fn versions_full(branch: Name) -> Reply
    ensures { result ≡ Reply.Refused (Refusal.VersionsFull branch) }
{
    refused(Refusal::VersionsFull { branch })
}

/// Why a working table didn't take a change of a key, with room for so many touched keys.
pub fn refusal_of(stop: WorkStop, relation: Name, key: u64, room: u32) -> Refusal
    ensures { result ≡ refusal_of relation key room stop }
{
    match stop {
        WorkStop::KeyThere => Refusal::KeyThere { relation, key },
        WorkStop::KeyMissing => Refusal::KeyMissing { relation, key },
        WorkStop::TableFull { .. } => Refusal::TableFull { relation },
        WorkStop::Room => Refusal::Room { room },
        WorkStop::BodyFull => Refusal::BodyFull,
    }
}
