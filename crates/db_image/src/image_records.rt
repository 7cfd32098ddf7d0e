//! The ranges of a record's key and fields, which its types tell.
ghost use Rattle.std.specs.Prelude.{◌<◌, ◌^◌};
ghost use Rattle.db_image.specs.Imaged.{IsRanged};

use db_value::Record;

fn key_fits(key: u64)
    ensures { key < 2 ^ 64 }
{
    let _key = key;
}

/// The key of a record has 64 bits, and its fields hold values. It does nothing.
pub(crate) fn fits_its_types(row: &Record)
    ensures { IsRanged row.now }
{
    key_fits(row.key);
    let _packed = row.fields.packed();
}
