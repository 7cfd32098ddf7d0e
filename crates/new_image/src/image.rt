//! The image of a new dataset.
ghost use Rattle.std.specs.Prelude.{◌≡◌, ◌++◌, true, IfOk, OnOk};
ghost use Rattle.std.specs.Int.{w32, to_le_bytes};
ghost use Rattle.std.specs.List.{list_all};
ghost use Rattle.db_value.specs.Relations.{has_columns, is_counted};
ghost use Rattle.new_image.specs.Image.{name_bytes, column_bytes, columns_bytes, relation_bytes, relations_bytes, branches_bytes, segment_bytes, segments_bytes, image_of};

use db_value::{Column, Name, Relation};
use std::alloc::{AllocError, Global};

// One segment without records, the head of master, and master's row with one empty delta.
const SEGMENT: [u8; 32] = [
    1, 0, 0, 0, 1, 0, 0, 0, 0, 0, 0, 0, 1, 0, 0, 0, 0, 0, 0, 0, 0, 0, 0, 0, 0, 0, 0, 0, 0, 0, 0, 0,
];

fn put_name(out: &mut Vec<u8>, name: &Name) -> Result<(), AllocError>
    ensures { OnOk result (out.new.items ≡ out.old.items ++ name_bytes name.now) }
{
    out.push(name.count() as u8)?;
    out.extend_from_slice(name.as_bytes())?;
    Ok(())
}

fn put_column(out: &mut Vec<u8>, column: &Column) -> Result<(), AllocError>
    ensures { OnOk result (out.new.items ≡ out.old.items ++ column_bytes column.now) }
{
    put_name(out, &column.name)?;
    out.push(column.width)?;
    Ok(())
}

fn put_columns(out: &mut Vec<u8>, columns: &[Column]) -> Result<(), AllocError>
    ensures { OnOk result (out.new.items ≡ out.old.items ++ columns_bytes columns.now) }
{
    for column in columns {
        put_column(out, column)?;
    }
    Ok(())
}

fn put_relation(out: &mut Vec<u8>, relation: &Relation) -> Result<(), AllocError>
    requires { has_columns relation.now ≡ true }
    ensures { OnOk result (out.new.items ≡ out.old.items ++ relation_bytes relation.now) }
{
    let columns = relation.columns.as_slice();
    put_name(out, &relation.name)?;
    out.push(columns.len() as u8)?;
    put_columns(out, columns)?;
    Ok(())
}

fn put_relations(out: &mut Vec<u8>, relations: &[Relation]) -> Result<(), AllocError>
    requires { list_all has_columns relations.now ≡ true }
    ensures { OnOk result (out.new.items ≡ out.old.items ++ relations_bytes relations.now) }
{
    for relation in relations {
        put_relation(out, relation)?;
    }
    Ok(())
}

fn put_u32(out: &mut Vec<u8>, n: u32) -> Result<(), AllocError>
    ensures { OnOk result (out.new.items ≡ out.old.items ++ to_le_bytes w32 n) }
{
    out.extend_from_slice(&n.to_le_bytes())?;
    Ok(())
}

fn put_branches(out: &mut Vec<u8>) -> Result<(), AllocError>
    ensures { OnOk result (out.new.items ≡ out.old.items ++ branches_bytes) }
{
    put_u32(out, 1)?;
    out.push(6)?;
    out.extend_from_slice(b"master")?;
    put_u32(out, 0)?;
    put_u32(out, 0)?;
    put_u32(out, 0)?;
    Ok(())
}

fn put_segment(out: &mut Vec<u8>) -> Result<(), AllocError>
    ensures { OnOk result (out.new.items ≡ out.old.items ++ segment_bytes) }
{
    out.extend_from_slice(&SEGMENT)?;
    Ok(())
}

fn put_segments(out: &mut Vec<u8>, relations: &[Relation]) -> Result<(), AllocError>
    ensures { OnOk result (out.new.items ≡ out.old.items ++ segments_bytes relations.now) }
{
    for _relation in relations {
        put_segment(out)?;
    }
    Ok(())
}

/// The image of the new dataset of these relations.
pub fn image_bytes(alloc: Global, relations: &[Relation]) -> Result<Vec<u8>, AllocError>
    requires { is_counted relations.now ≡ true }
    ensures { IfOk result (λ v. v.items ≡ image_of relations.now) }
{
    let mut out: Vec<u8> = Vec::new(alloc);
    out.push(relations.len() as u8)?;
    put_relations(&mut out, relations)?;
    put_branches(&mut out)?;
    put_segments(&mut out, relations)?;
    Ok(out)
}
