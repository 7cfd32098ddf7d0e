//! Files in both formats, and with texts. What is told of them was worked out by hand.
use crate::asserts::holds;
use crate::files::{TAG, TAGS, Told, batch_of, created_by, opened_old, renamed_stop, told_of};
use db_memdev::MemDisk;
use entry_codec::Log;
use generations::{Dataset, OpenStop, Pair, reopen};
use std::alloc::Global;
use std::test::Fail;

// What is told of the files once an image was written beside the file in the first format, and whether
// that file stayed and the new one is in the second format.
fn renewed(alloc: Global) -> Option<(Told, bool)> {
    let (mut dataset, store) = opened_old(alloc)?;
    if told_of(&dataset, &store) != (1, 0, 197, 1, 1) || dataset.checkpoint(&store).is_err() {
        return None;
    }
    let disks = dataset.into_disks();
    let stays = disks.first.bytes().get(..9) == Some(b"\x01DECIBEL1")
        && disks.second.bytes().get(..9) == Some(b"\x01DECIBEL2");
    let (dataset, store) = reopen(alloc, disks).ok()?;
    Some((told_of(&dataset, &store), stays))
}

#[test]
fn reads_the_first_format_and_writes_the_second(rt: HostRuntime) -> Result<(), Fail> {
    let (told, stays) = renewed(rt.alloc()).ok_or("no files")?;
    holds(&rt, "what is told", told == (2, 1, 4243, 0, 1));
    holds(&rt, "the formats", stays);
    Ok(())
}

// The second column's length is read as the width of the first one, and its first byte as a length.
#[test]
fn reads_no_old_file_by_the_new_name(rt: HostRuntime) {
    let is_so = matches!(
        renamed_stop(rt.alloc()),
        Some(OpenStop::Damaged {
            file: 0,
            at: 68,
            ..
        })
    );
    holds(&rt, "the damage", is_so);
}

// What is told of a dataset with a text once its image was written.
fn imaged(alloc: Global, disks: Pair<MemDisk>) -> Option<Told> {
    let (mut dataset, store) = reopen(alloc, disks).ok()?;
    if told_of(&dataset, &store) != (1, 0, 203, 1, 1) || dataset.checkpoint(&store).is_err() {
        return None;
    }
    let (dataset, store) = reopen(alloc, dataset.into_disks()).ok()?;
    Some(told_of(&dataset, &store))
}

fn with_a_text(alloc: Global) -> Option<Dataset<MemDisk>> {
    let mut dataset = created_by(alloc, b"relation tags name:8 n\nend\n", &[], &[])?;
    let batch = batch_of(alloc, &TAG)?;
    match dataset.append(&batch) {
        Ok(()) => Some(dataset),
        Err(_) => None,
    }
}

#[test]
fn keeps_texts_in_both_files(rt: HostRuntime) -> Result<(), Fail> {
    let disks = with_a_text(rt.alloc()).ok_or("no dataset")?.into_disks();
    holds(&rt, "the bytes", disks.first.bytes() == TAGS.as_slice());
    let told = imaged(rt.alloc(), disks).ok_or("no image")?;
    holds(&rt, "what is told", told == (2, 1, 4245, 0, 1));
    Ok(())
}
