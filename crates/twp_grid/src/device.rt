ghost use Rattle.std.specs.Prelude.{◌≡◌, ℕ, ◌≤◌, ◌<◌, List, Option, Some, None, Bool, true, false};
ghost use Rattle.std.specs.Prelude.{length, IfOk, is_err};
ghost use Rattle.std.specs.Io.KnownBytes.{ReadConsumes, WriteAppends, Keeps};

use std::io::{Read, Write};

/// The fault of a device that has failed, for whatever reason. It takes and gives no more bytes.
#[derive(Clone, Copy, Debug, PartialEq, Eq)]
pub struct DeviceFault;

/// A source of bytes to read.
pub trait Source {
    /// The bytes that are still to be read, if they are known.
    ghost remaining: { Self → Option (List ℕ) } = { λ _. None };

    /// Whether a call has failed.
    ghost has_failed: { Self → Bool };

    /// Fills the start of a buffer, and returns how many bytes it filled. If that is 0 although the
    /// buffer has room, the input has ended.
    fn fill(&mut self, buffer: &mut [u8]) -> Result<usize, DeviceFault>
        requires { has_failed self.old ≡ false }
        ensures within { IfOk result (λ n. n ≤ length buffer.new) }
        ensures bytes { ReadConsumes (remaining self.old) (remaining self.new) result buffer.new }
        ensures fails { has_failed self.new ≡ is_err result };

    /// Whether a call has failed.
    fn failed(&self) -> bool
        ensures { result ≡ has_failed self.now };
}

/// A sink to write bytes to.
pub trait Sink {
    /// The bytes taken so far, if they are known.
    ghost contents: { Self → Option (List ℕ) } = { λ _. None };

    /// Whether a call has failed.
    ghost has_failed: { Self → Bool };

    /// Takes bytes at the start of a slice, and returns how many: at least one, unless the slice is
    /// empty. If the call fails, it took none.
    fn put(&mut self, bytes: &[u8]) -> Result<usize, DeviceFault>
        requires { has_failed self.old ≡ false }
        ensures within { IfOk result (λ n. n ≤ length bytes.now) }
        ensures some { IfOk result (λ n. 0 < length bytes.now → 0 < n) }
        ensures bytes { WriteAppends (contents self.old) (contents self.new) result bytes.now }
        ensures fails { has_failed self.new ≡ is_err result };

    /// Passes on the bytes that are buffered.
    fn flush(&mut self) -> Result<(), DeviceFault>
        requires { has_failed self.old ≡ false }
        ensures bytes { Keeps (contents self.old) (contents self.new) }
        ensures fails { has_failed self.new ≡ is_err result };

    /// Whether a call has failed.
    fn failed(&self) -> bool
        ensures { result ≡ has_failed self.now };
}

/// A reader or a writer as a device: an error of any kind is a fault, and so is a write that takes
/// no byte of a slice that isn't empty.
#[derive(Drop)]
pub struct Device<T> {
    inner: T,
    failed: bool,
}

impl<T> Device<T> {
    ghost use Rattle.twp_grid.specs.Devices.{inner_of, device_failed};

    /// A device that hasn't failed.
    pub fn new(inner: T) -> Device<T>
        ensures inner { inner_of result ≡ inner }
        ensures open { device_failed result ≡ false }
    {
        Device {
            inner,
            failed: false,
        }
    }

    /// The reader or writer.
    pub fn get(&self) -> &T
        ensures { result.now ≡ inner_of self.now }
    {
        &self.inner
    }

    /// Whether a call has failed.
    fn has_failed(&self) -> bool
        ensures { result ≡ device_failed self.now }
    {
        self.failed
    }

    /// Records that a call failed.
    fn fail(&mut self) -> DeviceFault
        ensures failed { device_failed self.new ≡ true }
        ensures inner { inner_of self.new ≡ inner_of self.old }
    {
        self.failed = true;
        DeviceFault
    }
}

impl<T: Read> Source for Device<T> {
    ghost use Rattle.twp_grid.specs.Devices.{inner_of, device_failed};

    ghost remaining = { λ device. T.remaining (inner_of device) };

    ghost has_failed = { device_failed };

    fn fill(&mut self, buffer: &mut [u8]) -> Result<usize, DeviceFault> {
        match self.inner.read(buffer) {
            Ok(count) => Ok(count),
            Err(_) => Err(self.fail()),
        }
    }

    fn failed(&self) -> bool {
        self.has_failed()
    }
}

impl<T: Write> Sink for Device<T> {
    ghost use Rattle.twp_grid.specs.Devices.{inner_of, device_failed};

    ghost contents = { λ device. T.contents (inner_of device) };

    ghost has_failed = { device_failed };

    fn put(&mut self, bytes: &[u8]) -> Result<usize, DeviceFault> {
        match self.inner.write(bytes) {
            Ok(count) if count > 0 || bytes.is_empty() => Ok(count),
            _ => Err(self.fail()),
        }
    }

    fn flush(&mut self) -> Result<(), DeviceFault> {
        match self.inner.flush() {
            Ok(()) => Ok(()),
            Err(_) => Err(self.fail()),
        }
    }

    fn failed(&self) -> bool {
        self.has_failed()
    }
}

/// Bytes in memory, as a source that never fails.
#[derive(Clone, Copy)]
pub struct Bytes<'a> {
    unread: &'a [u8],
}

impl<'a> Bytes<'a> {
    ghost use Rattle.twp_grid.specs.Devices.{unread_bytes};

    /// A source that gives these bytes.
    pub fn new(bytes: &'a [u8]) -> Bytes<'a>
        ensures { unread_bytes result ≡ bytes.now }
    {
        Bytes { unread: bytes }
    }
}

impl Source for Bytes<'_> {
    ghost use Rattle.std.specs.Prelude.{Some, false};
    ghost use Rattle.twp_grid.specs.Devices.{unread_bytes};

    ghost remaining = { λ bytes. Some (unread_bytes bytes) };

    ghost has_failed = { λ _. false };

    fn fill(&mut self, buffer: &mut [u8]) -> Result<usize, DeviceFault> {
        let count = buffer.len().min(self.unread.len());
        let (front, rest) = self.unread.split_at(count);
        buffer[..count].copy_from_slice(front);
        self.unread = rest;
        Ok(count)
    }

    fn failed(&self) -> bool {
        false
    }
}
