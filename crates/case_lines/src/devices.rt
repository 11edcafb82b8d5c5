//! Calls of the device, and what a crash is asked to leave.

use crate::answer::Answer;
use crate::lines::{Words, number};
use sled_store::{Choice, CrashDevice, Device, MemDevice, Offer};
use std::alloc::Global;
use std::io;

/// Makes the call of this name.
pub fn call(
    alloc: Global,
    device: &mut MemDevice,
    name: &str,
    words: &mut Words<'_>,
    out: &mut Answer,
) {
    match name {
        "len" => out.counted(device.len()),
        "read_at" => read_at(device, words.number(), words.bytes(alloc), out),
        "blob_read" => out.found(device.blob_read(words.signed())),
        "blobs" => out.listed(device.blobs()),
        "snapshot_read" => out.found(device.snapshot_read(words.signed())),
        "snapshots" => out.listed(device.snapshots()),
        "log" => out.found(log_of(alloc, device)),
        "failures" => out.text.number(device.failures()),
        "stopped" => out.text.truth(device.stopped()),
        _ => change(alloc, device, name, words, out),
    }
}

// Reads bytes over these.
fn read_at(device: &mut MemDevice, at: u64, mut buf: Vec<u8>, out: &mut Answer) {
    match device.read_at(at, &mut buf) {
        Ok(count) => {
            out.text.number(count as u64);
            out.text.push(" ");
            out.text.hex(&buf);
        }
        Err(e) => out.fault(&e),
    }
}

// Makes a call that changes or syncs.
fn change(
    alloc: Global,
    device: &mut MemDevice,
    name: &str,
    words: &mut Words<'_>,
    out: &mut Answer,
) {
    match name {
        "write_at" => out.done(device.write_at(words.number(), &words.bytes(alloc))),
        "cut" => out.done(device.cut(words.number())),
        "sync" => out.done(device.sync()),
        "blob_create" => out.done(device.blob_create(words.signed(), &words.bytes(alloc))),
        "blob_sync" => out.done(device.blob_sync(words.signed())),
        "blob_remove" => out.done(device.blob_remove(words.signed())),
        "snapshot_write" => out.done(device.snapshot_write(&words.bytes(alloc))),
        "snapshot_publish" => out.done(device.snapshot_publish(words.signed())),
        "snapshot_remove" => out.done(device.snapshot_remove(words.signed())),
        "sync_names" => out.done(device.sync_names()),
        _ => control(alloc, device, name, words, out),
    }
}

// Makes the device fail, stop or crash.
fn control(
    alloc: Global,
    device: &mut MemDevice,
    name: &str,
    words: &mut Words<'_>,
    out: &mut Answer,
) {
    match name {
        "fail_at" => fail_at(device, words.number(), out),
        "stop_after" => {
            device.stop_after(words.number());
            out.ok();
        }
        "crash" => out.text.truth(device.crash(choice(alloc, words))),
        _ => words.bad("no such call"),
    }
}

fn fail_at(device: &mut MemDevice, n: u64, out: &mut Answer) {
    if n == 0 {
        out.refused();
        return;
    }
    device.fail_at(n);
    out.ok();
}

/// The bytes of the log file.
pub fn log_of(alloc: Global, device: &mut MemDevice) -> io::Result<Vec<u8>> {
    let mut bytes = Vec::new(alloc);
    let len = device.len()?;
    bytes.resize(len as usize, 0)?;
    let count = device.read_at(0, &mut bytes)?;
    bytes.truncate(count);
    Ok(bytes)
}

/// Returns what a crash is asked to leave: `old` or `new`, with any `OFFSET:BYTE` behind it, or `whole` with the log
/// file and any `blob PLACE HEX` and `snapshot NUMBER HEX`.
pub fn choice(alloc: Global, words: &mut Words<'_>) -> Choice {
    match words.word() {
        "old" => Choice::Old(patch(alloc, words)),
        "new" => Choice::New(patch(alloc, words)),
        "whole" => Choice::Whole(offer(alloc, words)),
        _ => {
            words.bad("a crash leaves old, new or whole");
            Choice::Old(Vec::new(alloc))
        }
    }
}

// Offsets, each with its byte.
fn patch(alloc: Global, words: &mut Words<'_>) -> Vec<(u64, u8)> {
    let mut patch = Vec::new(alloc);
    for _ in 0..u64::MAX {
        let Some(word) = words.next_word() else {
            break;
        };
        let is_kept = match patched(word) {
            Some(byte) => patch.push(byte).is_ok(),
            None => false,
        };
        if !is_kept {
            words.bad("a patch has offsets and bytes");
        }
    }
    patch
}

// An offset and its byte.
fn patched(word: &str) -> Option<(u64, u8)> {
    let (at, byte) = word.split_once(':')?;
    Some((number(at)?, byte.parse().ok()?))
}

// A whole content.
fn offer(alloc: Global, words: &mut Words<'_>) -> Offer {
    let mut offer = Offer {
        bytes: words.bytes(alloc),
        blobs: Vec::new(alloc),
        snapshots: Vec::new(alloc),
    };
    for _ in 0..u64::MAX {
        let Some(word) = words.next_word() else {
            break;
        };
        let file = (words.signed(), words.bytes(alloc));
        let is_kept = match word {
            "blob" => offer.blobs.push(file).is_ok(),
            "snapshot" => offer.snapshots.push(file).is_ok(),
            _ => false,
        };
        if !is_kept {
            words.bad("an offer has blobs and snapshots");
        }
    }
    offer
}
