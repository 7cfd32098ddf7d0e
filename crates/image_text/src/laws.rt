//! What is read is spelled so.
ghost use Rattle.std.specs.Prelude.{◌≡◌, List, ℕ, Ok};
ghost use Rattle.image_text.specs.declared.image.Format.{Format};
ghost use Rattle.image_text.specs.declared.image.Image.{Image};
ghost use Rattle.image_text.specs.Reading.{parts_at};
ghost use Rattle.image_text.specs.Laws.{IsBytes, IsSpelled};

/// The parts that bytes are read as have these bytes as their one spelling.
pub fn spelling_law()
    ensures { (format : Format) (b : List ℕ) (x : Image × List ℕ) → IsBytes b
        → parts_at format b ≡ Ok x → IsSpelled format b x.0 }
{}
