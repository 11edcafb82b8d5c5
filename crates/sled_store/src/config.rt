//! How a log is kept: the size of its segments, its device and its checksum.
ghost use Rattle.std.specs.Prelude.{◌≡◌, ◌↔◌, ◌≤◌, IsSome, IfSome, true};
ghost use Rattle.std.specs.Int.{is_power_of_two};
ghost use Rattle.sled_store.specs.Segments.{IsSegmentSize};

use std::alloc::Global;

/// The size of a log's segments, in bytes.
#[derive(Debug, Clone, Copy)]
pub struct Config {
    /// A power of two from 256 to 8388608.
    pub segment_size: u64,
    ghost least: { 256 ≤ segment_size },
    ghost most: { segment_size ≤ 8388608 },
    ghost power: { is_power_of_two segment_size ≡ true },
}

impl Config {
    /// Returns a configuration with segments of this size; `None` where that is no power of two from 256 to
    /// 8388608.
    pub fn new(segment_size: u64) -> Option<Config>
        ensures known { IsSome result ↔ IsSegmentSize segment_size }
        ensures size { IfSome result (λ config. config.segment_size ≡ segment_size) }
    {
        if segment_size >= 256 && segment_size <= 8388608 && segment_size.is_power_of_two() {
            return Some(Config { segment_size });
        }
        None
    }
}

/// What a log runs on. One device has one configuration and one checksum throughout.
#[derive(Drop)]
pub struct RunningConfig<D, C> {
    /// The size of segments.
    pub config: Config,
    /// What holds the log, its blobs and its snapshots.
    pub device: D,
    /// What tells a whole message from a torn one.
    pub checksum: C,
    alloc: Global,
}

impl<D, C> RunningConfig<D, C> {
    /// Returns what a log runs on. What the log makes, it makes with this allocator; this call takes no
    /// memory.
    pub fn new(alloc: Global, config: Config, device: D, checksum: C) -> RunningConfig<D, C>
        ensures config { result.config ≡ config }
        ensures device { result.device ≡ device }
        ensures checksum { result.checksum ≡ checksum }
    {
        RunningConfig {
            config,
            device,
            checksum,
            alloc,
        }
    }

    /// Returns the allocator that it was made with.
    pub fn alloc(&self) -> Global {
        self.alloc
    }
}

impl<D, C: Drop> RunningConfig<D, C> {
    /// Returns its device, and drops the rest.
    pub fn into_device(self) -> D
        ensures { result ≡ self.device }
    {
        let RunningConfig {
            config: _,
            device,
            checksum: _,
            alloc: _,
        } = self;
        device
    }
}
