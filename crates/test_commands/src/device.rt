use std::alloc::{AllocError, Global};
use std::io;
use std::io::Write;

// For how many bytes a device has the memory from the start: what most commands write.
const MADE: usize = 1 << 12;

/// A device that takes so many bytes, and fails from then on.
#[derive(Drop)]
pub struct Device {
    room: usize,
    /// What it took.
    pub taken: Vec<u8>,
    /// How often it failed.
    pub failures: u32,
}

impl Device {
    /// A device with room for so many bytes, which took none yet. For the first of them it has the memory.
    pub fn new(alloc: Global, room: u32) -> Result<Device, AllocError> {
        let room = room as usize;
        Ok(Device {
            room,
            taken: Vec::with_capacity(alloc, room.min(MADE))?,
            failures: 0,
        })
    }
}

impl Write for Device {
    fn write(&mut self, bytes: &[u8]) -> io::Result<usize> {
        let count = bytes.len().min(self.room);
        if count == 0 && !bytes.is_empty() {
            self.failures = self.failures.saturating_add(1);
            return Err(io::Error::from(io::ErrorKind::BrokenPipe));
        }
        self.taken.extend_from_slice(&bytes[..count])?;
        self.room -= count;
        Ok(count)
    }

    fn flush(&mut self) -> io::Result<()> {
        Ok(())
    }
}
