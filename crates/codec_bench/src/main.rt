//! The program `codec_bench`: how long the codecs take for a value, a log for a record, for a batch and where it frees
//! segments, the accountant for a segment, and the stable end for an interval that is synced (`docs/BENCHMARKS.md`).
//!
//! Without an argument it prints one fixed line. With the argument `time` it measures, and prints a line
//! for each figure. With the arguments `path NAME COUNT` it does the path of that name so many times, with no
//! clock, and prints one line: `.ci/speed` counts the instructions that this takes (`paths`).
#![tactic(auto)]

mod accounts;
mod batches;
mod blobs;
mod figure;
mod freeing;
mod headers;
mod identifiers;
mod logs;
mod numbers;
mod paths;
mod recoveries;
mod sequence;
mod sums;
mod syncs;

use logs::NoSum;
use recoveries::Shape;
use sequence::Sequence;
use sled_file::Crc32;
use sled_log::device::PlaceSum;
use std::num::NonZeroU64;
use std::{env, io};

fn main(rt: HostRuntime) -> io::Result<()> {
    let mut words = env::args(&rt)?;
    let _ = words.next();
    let Some(word) = words.next() else {
        return tell(&rt);
    };
    match (word.as_str(), words.next(), words.next()) {
        ("time", _, _) => measure(&rt),
        ("path", Some(name), Some(count)) => match count.as_str().parse() {
            Ok(count) => paths::repeat(&rt, name.as_str(), count),
            Err(_) => tell(&rt),
        },
        _ => tell(&rt),
    }
}

// Says how it is called.
fn tell(rt: &HostRuntime) -> io::Result<()> {
    println!(rt;
        "codec_bench: pass the argument time to measure, or path NAME COUNT to do one path so many times"
    )
}

// Measures all, and prints a line for each figure.
fn measure(rt: &HostRuntime) -> io::Result<()> {
    let mut sequence = Sequence::new();
    measure_codecs(rt, &mut sequence)?;
    measure_logs(rt)?;
    logs::measure_start(rt)?;
    blobs::measure(rt, "blobs of 200 KB", 200000)?;
    blobs::measure(rt, "blobs of 2 MB", 2000000)?;
    measure_recoveries(rt)?;
    measure_accounts(rt)?;
    measure_freeing(rt)?;
    batches::measure(rt, "batches settled one by one", 1)?;
    batches::measure(rt, "batches settled by hundreds", 100)?;
    batches::measure(rt, "batches settled at once", u32::MAX)?;
    syncs::measure_in_order(rt)?;
    syncs::measure_shuffled(rt, "intervals in windows of 64", 64, &mut sequence)?;
    syncs::measure_shuffled(rt, "intervals in windows of 4096", 4096, &mut sequence)?;
    measure_identifiers(rt)
}

// Numbers and headers.
fn measure_codecs(rt: &HostRuntime, sequence: &mut Sequence) -> io::Result<()> {
    let small = numbers::below_241(rt.alloc(), sequence)?;
    numbers::measure(rt, "u64 below 241", &small)?;
    let any = numbers::of_any_size(rt.alloc(), sequence)?;
    numbers::measure(rt, "u64 of 0 to 63 bits", &any)?;
    let sorted = numbers::sorted(rt.alloc(), &any)?;
    numbers::measure(rt, "u64 of 0 to 63 bits, ascending", &sorted)?;
    let headers = headers::of_any_size(rt.alloc(), sequence)?;
    headers::measure(rt, "header", &headers)?;
    let alike = headers::of_one_size(rt.alloc(), sequence)?;
    headers::measure(rt, "header of 14 bytes", &alike)
}

// Logs over one segment with each of the sums, the sums, and logs over many segments.
fn measure_logs(rt: &HostRuntime) -> io::Result<()> {
    for (name, len) in [
        ("records of 11 bytes", 10),
        ("records of 200 bytes", 199),
        ("records of 4000 bytes", 3997),
    ] {
        logs::measure(rt, name, len, PlaceSum)?;
    }
    for (name, len) in [
        ("records of 11 bytes, no sum", 10),
        ("records of 200 bytes, no sum", 199),
        ("records of 4000 bytes, no sum", 3997),
    ] {
        logs::measure(rt, name, len, NoSum)?;
    }
    for (name, len) in [
        ("records of 11 bytes, Crc32", 10),
        ("records of 200 bytes, Crc32", 199),
        ("records of 4000 bytes, Crc32", 3997),
    ] {
        logs::measure(rt, name, len, Crc32)?;
    }
    sums::measure(rt, "PlaceSum", &PlaceSum)?;
    sums::measure(rt, "Crc32", &Crc32)?;
    logs::measure_segments(rt, "segments of 8 KiB, 11 bytes", 8192, 10)?;
    logs::measure_segments(rt, "segments of 512 KiB, 11 bytes", 524288, 10)?;
    logs::measure_segments(rt, "segments of 512 KiB, 200 bytes", 524288, 199)?;
    logs::measure_segments(rt, "segments of 512 KiB, 4000 bytes", 524288, 3997)
}

// Identifiers with blocks of one, of a hundred and of ten thousand.
fn measure_identifiers(rt: &HostRuntime) -> io::Result<()> {
    for (name, block) in [
        ("identifiers in blocks of 1", 1u64),
        ("identifiers in blocks of 100", 100),
        ("identifiers in blocks of 10000", 10000),
    ] {
        if let Some(block) = NonZeroU64::new(block) {
            identifiers::measure(rt, name, block)?;
        }
    }
    Ok(())
}

// Recovery of 100 MB with bodies of some lengths, and of more and more segments with as many pages more.
fn measure_recoveries(rt: &HostRuntime) -> io::Result<()> {
    let long = 8388608;
    recoveries::measure(rt, "100 MB, bodies of 11 bytes", shape(long, 12, 11, 1000))?;
    recoveries::measure(
        rt,
        "100 MB, bodies of 200 bytes",
        shape(long, 12, 200, 1000),
    )?;
    recoveries::measure(
        rt,
        "100 MB, bodies of 4000 bytes",
        shape(long, 12, 4000, 1000),
    )?;
    recoveries::measure(rt, "16 segments", shape(65536, 16, 200, 1000))?;
    recoveries::measure(rt, "160 segments", shape(65536, 160, 200, 10000))?;
    recoveries::measure(rt, "1600 segments", shape(65536, 1600, 200, 100000))
}

// So many segments of this size, with bodies of so many bytes, of so many pages.
fn shape(segment_size: u64, segments: u64, body: usize, pages: u64) -> Shape {
    Shape {
        segment_size,
        segments,
        body,
        pages,
    }
}

// The accountant, over more and more pages and segments.
fn measure_accounts(rt: &HostRuntime) -> io::Result<()> {
    accounts::measure_marks(rt, "100 pages", 100)?;
    accounts::measure_marks(rt, "1000 pages", 1000)?;
    accounts::measure_marks(rt, "10000 pages", 10000)?;
    accounts::measure_marks(rt, "100000 pages", 100000)?;
    accounts::measure_segments(rt, "100 segments", 100)?;
    accounts::measure_segments(rt, "1000 segments", 1000)?;
    accounts::measure_segments(rt, "10000 segments", 10000)?;
    accounts::measure_segments(rt, "100000 segments", 100000)?;
    accounts::measure_frees(rt, "100 freed", 100)?;
    accounts::measure_frees(rt, "1000 freed", 1000)?;
    accounts::measure_frees(rt, "10000 freed", 10000)?;
    accounts::measure_frees(rt, "100000 freed", 100000)?;
    accounts::measure_drains(rt, "100 slots", 100)?;
    accounts::measure_drains(rt, "1000 slots", 1000)?;
    accounts::measure_drains(rt, "10000 slots", 10000)?;
    accounts::measure_drains(rt, "100000 slots", 100000)
}

// A log whose segments come back, and marks of it over more and more pages.
fn measure_freeing(rt: &HostRuntime) -> io::Result<()> {
    freeing::measure_rounds(rt)?;
    freeing::measure_turns(rt)?;
    freeing::measure_writes(rt)?;
    freeing::measure_marks(rt, "1000 pages", 1000)?;
    freeing::measure_marks(rt, "10000 pages", 10000)?;
    freeing::measure_marks(rt, "100000 pages", 100000)
}
