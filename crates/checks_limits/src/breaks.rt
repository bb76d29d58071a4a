//! A reader of line ends.

use std::io;
use std::io::Read;

/// Fills each read with LF, until it has given so many.
#[derive(Drop)]
pub struct Breaks {
    pub left: u64,
}

impl Read for Breaks {
    fn read(&mut self, buf: &mut [u8]) -> io::Result<usize> {
        let given = (buf.len() as u64).min(self.left);
        self.left -= given;
        let given = given as usize;
        buf[..given].fill(b'\n');
        Ok(given)
    }
}
