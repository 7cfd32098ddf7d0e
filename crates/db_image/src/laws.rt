//! An image that is read stands for sound parts of a layout, which can be made. The image of a layout
//! stands for the layout, if its versions stand in the order made.
ghost use Rattle.std.specs.Prelude.{◌≡◌, ◌<◌, ◌^◌, List, [], ℕ, Ok, true};
ghost use Rattle.db_value.specs.declared.entry.Entry.{Entry};
ghost use Rattle.db_value.specs.declared.schema.Relation.{Relation};
ghost use Rattle.db_store.specs.Fits.{fits};
ghost use Rattle.db_store.specs.Counted.{IsCounted};
ghost use Rattle.db_store.specs.Sound.{IsSound};
ghost use Rattle.db_store.specs.Layout.{Layout, dataset_in, new_layout};
ghost use Rattle.db_store.specs.LaidOut.{IsLaid};
ghost use Rattle.db_store.specs.LayoutGrowth.{grow_layout};
ghost use Rattle.hybrid_store.specs.declared.parts.LayoutParts.{LayoutParts};
ghost use Rattle.hybrid_store.specs.Parts.{AreSound, layout_of_parts};
ghost use Rattle.hybrid_store.specs.Store.{layout_of};
ghost use Rattle.image_text.specs.declared.image.Format.{Format};
ghost use Rattle.image_text.specs.declared.image.Image.{Image};
ghost use Rattle.image_parts.specs.Whole.{image_at, is_whole};
ghost use Rattle.image_text.specs.Laws.{IsBytes};
ghost use Rattle.image_text.specs.Spelling.{spelling};
ghost use Rattle.hybrid_view.specs.Deltas.{slots_of};
ghost use Rattle.db_image.specs.Parts.{bits_of, parts_of};
ghost use Rattle.db_image.specs.Read.{IsFit};
ghost use Rattle.db_image.specs.Images.{delta_image, image_of};
ghost use Rattle.db_image.specs.Imaged.{AreSlots, AreWithin, AreInOrder, AllNumbersFit, HasLines, HasOrigins, HasSegments, IsImaged, IsNamed};
ghost use Rattle.db_image.specs.Rules.{lasts_of, onto, tells, AreByRelation, EachNext, IsDelta, IsNextRelation, IsRuled};

use hybrid_store::HybridStore;

/// The parts that an image stands for are sound.
pub fn parts_law()
    ensures { (f : Format) (b : List ℕ) (i : Image) → image_at f b ≡ Ok i → AreSound (parts_of i) }
{}

/// An image that is read is one of which the parts can be made.
pub fn fit_law()
    ensures { (f : Format) (b : List ℕ) (i : Image) → IsBytes b → image_at f b ≡ Ok i → IsFit i }
{}

/// The image of a layout stands for the layout, if its rows are those of its segments and its versions
/// stand in the order made.
pub fn layout_law()
    ensures { (l : Layout) → AreWithin l → AreInOrder l
        → layout_of_parts (parts_of (image_of l)) ≡ l }
{}

/// The rows of a store's layout are those of its segments.
pub fn within_law(store: &HybridStore)
    ensures { AreWithin (layout_of store.now) }
{
    let _store = store;
}

/// The versions of a new layout and of a layout of parts stand in the order made, and growth keeps it.
pub fn order_law()
    ensures first { (schema : List Relation) → AreInOrder (new_layout schema) }
    ensures stays { (l : Layout) (e : Entry) → IsSound (dataset_in l)
        → fits (dataset_in l) e ≡ true → AreInOrder l → AreInOrder (grow_layout l e) }
    ensures parts { (p : LayoutParts) → IsSound (dataset_in (layout_of_parts p))
        → AreInOrder (layout_of_parts p) }
{}

/// An image that keeps all rules is read from its spelling in a format that tells the widths of its
/// columns.
pub fn rules_law()
    ensures { (f : Format) (i : Image) → IsRuled i → tells f i.relations ≡ true
        → image_at f (spelling f i) ≡ Ok i }
{}

/// The delta of an image of slots keeps the rules of deltas, and changes these slots.
pub fn delta_law()
    ensures rules { (size : ℕ) (slots : List ℕ) → AreSlots size slots → size < 2 ^ 32
        → IsDelta size (delta_image slots) }
    ensures slots { (size : ℕ) (slots : List ℕ) → AreSlots size slots
        → slots_of (bits_of size (delta_image slots)) ≡ slots }
{}

/// The branches and the versions of the image of a new layout keep their rules, and growth keeps it, if
/// the name of a new branch is a name.
pub fn lines_law()
    ensures first { (schema : List Relation) → HasLines (new_layout schema) }
    ensures stays { (l : Layout) (e : Entry) → IsSound (dataset_in l)
        → fits (dataset_in l) e ≡ true → IsNamed e → AreInOrder l → HasLines l
        → HasLines (grow_layout l e) }
{}

/// The segments of the image of a layout keep their rules, if those of the layout are filled as those of
/// an image can be and their numbers fit.
pub fn segments_law()
    ensures { (l : Layout) → IsLaid l → IsSound (dataset_in l) → AreWithin l → AreInOrder l
        → HasSegments l → AllNumbersFit l
        → AreByRelation l.schema (lasts_of (image_of l)) 0 (image_of l).segments }
{}

/// The rules over the whole hold of the image of a layout, if its segments are filled as those of an
/// image can be, their numbers fit, and the place from which each branch was made is made.
pub fn whole_law()
    ensures { (l : Layout) → IsLaid l → IsSound (dataset_in l) → IsCounted (dataset_in l)
        → AreWithin l → AreInOrder l → HasSegments l → AllNumbersFit l → HasOrigins l
        → is_whole (image_of l) (lasts_of (image_of l)) ≡ true }
{}

/// An image can be of a new layout whose relations have names as they must. Growth keeps it, if the name of a
/// new branch is a name.
pub fn imaged_law()
    ensures first { (schema : List Relation) → EachNext onto IsNextRelation [] schema
        → IsImaged (new_layout schema) }
    ensures stays { (l : Layout) (e : Entry) → IsLaid l → IsSound (dataset_in l)
        → fits (dataset_in l) e ≡ true → IsNamed e → IsImaged l → IsImaged (grow_layout l e) }
{}

/// An image can be of the layout that an image which is read stands for.
pub fn read_law()
    ensures { (f : Format) (b : List ℕ) (i : Image) → image_at f b ≡ Ok i
        → IsImaged (layout_of_parts (parts_of i)) }
{}
