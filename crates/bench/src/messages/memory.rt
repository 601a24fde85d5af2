//! Reading how much memory the process has.

ghost use Rattle.std.specs.Prelude.{◌≡◌, ◌-◌};

use std::alloc::AllocGlobal;
use std::fs;
use std::rt::Files;

/// The memory of the process, in bytes, by Linux's `/proc`.
#[derive(Clone, Copy)]
pub struct Memory {
    /// What it has now (`VmRSS`).
    pub now: u64,
    /// The most that it had (`VmHWM`).
    pub most: u64,
}

impl Memory {
    /// The memory of this process; `None` where `/proc` does not say.
    pub fn read<R: Files + AllocGlobal>(rt: &R) -> Option<Memory> {
        let text = fs::read_to_string(rt, "/proc/self/status").ok()?;
        Memory::said_in(text.as_bytes())
    }

    /// The memory that the text of `/proc/self/status` says.
    fn said_in(text: &[u8]) -> Option<Memory> {
        Some(Memory {
            now: figure(text, b"VmRSS:")?,
            most: figure(text, b"VmHWM:")?,
        })
    }

    /// By how much the memory grew since then; `None` where `/proc` does not say, or did not.
    pub fn growth<R: Files + AllocGlobal>(rt: &R, before: Option<Memory>) -> Option<Memory> {
        Some(Memory::read(rt)?.since(before?))
    }

    /// By how much each figure grew; 0 for one that did not.
    fn since(self, before: Memory) -> Memory
        ensures { result ≡ record { now = self.now - before.now; most = self.most - before.most } }
    {
        Memory {
            now: self.now.saturating_sub(before.now),
            most: self.most.saturating_sub(before.most),
        }
    }
}

/// The kilobytes behind the name, as bytes.
fn figure(text: &[u8], name: &[u8]) -> Option<u64> {
    let mut named: usize = 0;
    let mut kilobytes: u64 = 0;
    for &byte in text {
        match name.get(named) {
            Some(&letter) if letter == byte => named = named.wrapping_add(1),
            Some(_) => named = 0,
            None if byte == b'\n' => return kilobytes.checked_mul(1024),
            None => kilobytes = with_digit(kilobytes, byte),
        }
    }
    None
}

/// The number with this digit appended, or as it is where the byte is no digit.
fn with_digit(number: u64, byte: u8) -> u64 {
    if byte.is_ascii_digit() {
        number
            .saturating_mul(10)
            .saturating_add(u64::from(byte.wrapping_sub(b'0')))
    } else {
        number
    }
}
