//! What is read is spelled so.
ghost use Rattle.std.specs.Prelude.{◌≡◌, List, ℕ, Ok};
ghost use Rattle.image_text.specs.declared.image.Format.{Format};
ghost use Rattle.image_text.specs.declared.image.Image.{Image};
ghost use Rattle.image_text.specs.Laws.{IsBytes, IsSpelled};
ghost use Rattle.image_text.specs.Spelling.{spelling};
ghost use Rattle.image_parts.specs.Whole.{image_at};

/// The bytes of an image in a format are its one spelling, no other bytes are that image in that
/// format, and what was read is read again.
pub fn image_law()
    ensures spelled { (format : Format) (b : List ℕ) (i : Image) → IsBytes b
        → image_at format b ≡ Ok i → IsSpelled format b i }
    ensures one { (format : Format) (a b : List ℕ) (i : Image) → IsBytes a → IsBytes b
        → image_at format a ≡ Ok i → image_at format b ≡ Ok i → a ≡ b }
    ensures again { (format : Format) (b : List ℕ) (i : Image) → IsBytes b
        → image_at format b ≡ Ok i → image_at format (spelling format i) ≡ Ok i }
{}
