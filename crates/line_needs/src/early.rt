//! Refusals that look at no lock.
ghost use Rattle.std.specs.Prelude.{◌≡◌, ◌<◌, length};
ghost use Rattle.line_needs.specs.Early.{outside_refusal, inside_refusal, first_refusal, terms_refusal};

use db_value::{Refusal, Schema, Term, first_unknown, first_wrong};

/// Why a statement that is at home outside a transaction is refused.
pub fn outside_refusal(begun: bool) -> Option<Refusal>
    ensures { result ≡ outside_refusal begun }
{
    if begun {
        return Some(Refusal::InTransaction);
    }
    None
}

/// Why a statement that is at home inside a transaction is refused.
pub fn inside_refusal(begun: bool) -> Option<Refusal>
    ensures { result ≡ inside_refusal begun }
{
    if begun {
        return None;
    }
    Some(Refusal::NoTransaction)
}

/// Why a merge is refused that isn't the first to change something.
pub fn first_refusal(changed: bool) -> Option<Refusal>
    ensures { result ≡ first_refusal changed }
{
    if changed {
        return Some(Refusal::NotFirst);
    }
    None
}

/// Why a condition on a relation is refused, if it is. It takes no memory.
pub fn terms_refusal(schema: &Schema, relation: u8, terms: &[Term]) -> Option<Refusal>
    requires { relation < length schema.now }
    ensures { result ≡ terms_refusal schema.now relation terms.now }
{
    match first_unknown(schema, relation, terms) {
        Some(column) => Some(Refusal::NoColumn { column }),
        None => match first_wrong(schema, relation, terms) {
            Some(column) => Some(Refusal::WrongKind { column }),
            None => None,
        },
    }
}
