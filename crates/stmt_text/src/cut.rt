//! How a statement is cut into its parts.
ghost use Rattle.std.specs.Prelude.{◌≡◌, ◌<◌, ◌∷◌, [], map, length, false, IfOk, IfSome, IfNone};
ghost use Rattle.stmt_text.specs.Cut.{first_space, is_cut, is_inside, parts_of, cut_from};

use std::alloc::{AllocError, Global};

/// As many parts as most statements have.
const USUAL_PARTS: usize = 8;

/// The place of the first space, whether in a text or not.
pub fn space_in(text: &[u8]) -> Option<usize>
    ensures place { result ≡ first_space text.now }
    ensures within { IfSome result (λ i. i < length text.now) }
{
    text.iter().position(|b| *b == b' ')
}

fn is_cut(inside: bool, byte: u8) -> bool
    ensures { result ≡ is_cut inside byte }
{
    !inside && byte == b' '
}

fn is_inside(inside: bool, byte: u8) -> bool
    ensures { result ≡ is_inside inside byte }
{
    if byte == b'"' { !inside } else { inside }
}

// The place of the first space that stands in no text.
fn cut_in(text: &[u8]) -> Option<usize>
    ensures place { result ≡ cut_from 0 false text.now }
    ensures within { IfSome result (λ i. i < length text.now) }
{
    let mut inside = false;
    for at in 0..text.len() {
        if is_cut(inside, text[at]) {
            return Some(at);
        }
        inside = is_inside(inside, text[at]);
    }
    None
}

// What stands before the first space that stands in no text, and what stands behind it.
fn first_part(text: &[u8]) -> Option<(&[u8], &[u8])>
    ensures parts { IfSome result (λ p. parts_of text.now ≡ p.0.now ∷ parts_of p.1.now) }
    ensures shorter { IfSome result (λ p. length p.1.now < length text.now) }
    ensures whole { IfNone result (parts_of text.now ≡ text.now ∷ []) }
{
    match cut_in(text) {
        None => None,
        Some(at) => Some((&text[..at], &text[at + 1..])),
    }
}

/// The parts of a statement. A space in a text belongs to it.
#[tactic(auto, using(crate::proofs::CutLemmas::one_part, crate::proofs::CutLemmas::last_part))]
pub fn parts_of(alloc: Global, text: &[u8]) -> Result<Vec<&[u8]>, AllocError>
    ensures { IfOk result (λ v. map (λ w. w.now) v.items ≡ parts_of text.now) }
{
    let mut parts: Vec<&[u8]> = Vec::with_capacity(alloc, USUAL_PARTS)?;
    let mut rest = text;
    'cutting: while let Some((part, more)) = first_part(rest) {
        parts.push(part)?;
        rest = more;
    }
    parts.push(rest)?;
    Ok(parts)
}
