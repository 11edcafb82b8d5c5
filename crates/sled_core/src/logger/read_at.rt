//! What bytes of a log file are read from: the device, or a part of the file that was read before.
ghost use Rattle.std.specs.Prelude.{◌≡◌, ◌≤◌, ◌<◌, ◌+◌, ◌-◌, ◌++◌, ℕ, List, [], length, drop, min, IfOk, OnOk};
ghost use Rattle.sled_codec.specs.Places.{part};
ghost use Rattle.sled_store.specs.Device.{Trace, state_of};
ghost use Rattle.sled_core.specs.Causes.{ReaderAnswers};
ghost use Rattle.sled_core.specs.Reading.{file_of};
ghost use Rattle.sled_store.specs.declared.config.Config.{Config};
ghost use Rattle.sled_core.specs.declared.logger.read_at.BasedBuf.{BasedBuf};

use sled_codec::result::{Error, LogOffset, Result};
use sled_store::{Config, Device, RunningConfig};
use std::alloc::Global;

/// Bytes of a log file from an offset on, up to its end.
#[derive(Debug, Drop)]
pub struct BasedBuf {
    /// The bytes.
    pub buf: Vec<u8>,
    /// Where the first of them stands in the file.
    pub offset: LogOffset,
}

/// What bytes of a log file are read from. Reading changes nothing.
pub trait ReadAt {
    /// The file. What stands in it before its beginning isn't known to the reader.
    ghost file: { Self → List ℕ };

    /// The offset of the first byte that can be read.
    ghost begins: { Self → ℕ };

    /// How many calls of a device failed.
    ghost faults: { Self → ℕ };

    /// All else that there is.
    ghost Rest: { Type 0 };

    ghost rest: { Self → Rest };

    /// Reads at an offset up to the end of the file or of `dst`, and returns how many bytes that are. The
    /// rest of `dst` stays.
    ///
    /// # Errors
    ///
    /// `Io` where the device failed.
    fn pread_exact_or_eof(&mut self, dst: &mut [u8], at: u64) -> Result<usize>
        requires { begins self.old ≤ at }
        ensures count { IfOk result (λ n. n ≡ min (length dst.old) (length (file self.old) - at)) }
        ensures bytes { IfOk result (λ n. dst.new ≡ part (file self.old) at n ++ drop n dst.old) }
        ensures answers { ReaderAnswers result ⊥ (faults self.old) (faults self.new) }
        ensures file { file self.new ≡ file self.old }
        ensures begins { begins self.new ≡ begins self.old }
        ensures rest { rest self.new ≡ rest self.old };

    /// Reads at an offset as many bytes as `dst` has.
    ///
    /// # Errors
    ///
    /// `Corruption` where the bytes end before that, and `Io` where the device failed.
    final fn pread_exact(&mut self, dst: &mut [u8], at: u64) -> Result<()>
        requires { begins self.old ≤ at }
        ensures bytes { OnOk result (dst.new ≡ part (file self.old) at (length dst.old)) }
        ensures whole { OnOk result (length dst.old ≤ length (file self.old) - at) }
        ensures answers { ReaderAnswers result (length (file self.old) - at < length dst.old) (faults self.old) (faults self.new) }
        ensures file { file self.new ≡ file self.old }
        ensures begins { begins self.new ≡ begins self.old }
        ensures rest { rest self.new ≡ rest self.old }
    {
        let count = self.pread_exact_or_eof(dst, at)?;
        if count < dst.len() {
            return Err(Error::Corruption { at: None });
        }
        Ok(())
    }
}

/// The log file of its device.
impl<D: Device, C> ReadAt for RunningConfig<D, C> {
    ghost file = { λ config. (state_of (D.trace config.device)).log.bytes };

    ghost begins = { λ config. 0 };

    ghost faults = { λ config. D.faults config.device };

    ghost Rest = { Trace × Config × C };

    ghost rest = { λ config. (D.trace config.device, config.config, config.checksum) };

    fn pread_exact_or_eof(&mut self, dst: &mut [u8], at: u64) -> Result<usize> {
        Ok(self.device.read_at(at, dst)?)
    }
}

impl BasedBuf {
    /// Returns one with no bytes, at the beginning of the file.
    pub fn new(alloc: Global) -> BasedBuf
        ensures bytes { result.buf.items ≡ [] }
        ensures offset { result.offset ≡ 0 }
    {
        BasedBuf {
            buf: Vec::new(alloc),
            offset: 0,
        }
    }

    /// Copies what there is of a length at an offset, and answers how many bytes that are.
    fn copy_to(&self, dst: &mut [u8], at: u64) -> usize
        requires { self.now.offset ≤ at }
        ensures count { result ≡ min (length dst.old) (length (file_of self.now) - at) }
        ensures bytes { dst.new ≡ part (file_of self.now) at result ++ drop result dst.old }
    {
        let start = ((at - self.offset) as usize).min(self.buf.len());
        let count = dst.len().min(self.buf.len() - start);
        dst[..count].copy_from_slice(&self.buf[start..start + count]);
        count
    }
}

/// The file from its offset on. The end of the buffer is that of the file.
impl ReadAt for BasedBuf {
    ghost file = { file_of };

    ghost begins = { λ b. b.offset };

    ghost faults = { λ b. 0 };

    ghost Rest = { BasedBuf };

    ghost rest = { λ b. b };

    fn pread_exact_or_eof(&mut self, dst: &mut [u8], at: u64) -> Result<usize> {
        Ok(self.copy_to(dst, at))
    }
}

/// As the buffer itself, which nothing changes.
impl ReadAt for &BasedBuf {
    ghost file = { λ b. file_of b.now };

    ghost begins = { λ b. b.now.offset };

    ghost faults = { λ b. 0 };

    ghost Rest = { BasedBuf };

    ghost rest = { λ b. b.now };

    fn pread_exact_or_eof(&mut self, dst: &mut [u8], at: u64) -> Result<usize> {
        Ok(self.copy_to(dst, at))
    }
}
