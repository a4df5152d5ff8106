// A line as a source of bytes.
use line::consume::fill;
use line::line::Line;
use std::io;
use std::io::Read;

#[derive(Drop)]
pub struct Carried<L: Line + Drop>(pub L);

impl<L: Line + Drop> Read for Carried<L> {
    fn read(&mut self, buf: &mut [u8]) -> io::Result<usize> {
        Ok(fill(&mut self.0, buf))
    }
}
