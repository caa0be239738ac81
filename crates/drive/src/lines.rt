// The lines of a script, counted as they are read.
use crate::fault::{Expected, Fault};
use std::io::{BufRead, ErrorKind};

// Every line is read into the text of the one before it: an iterator of `String`s takes more than half as long again for a
// line of no words, since each is allocated.
#[derive(Drop)]
pub struct Lines<B> {
    reader: B,
    number: u64,
}

impl<B: BufRead> Lines<B> {
    pub(crate) fn new(reader: B) -> Lines<B> {
        Lines { reader, number: 0 }
    }

    // Reads the next line in place of what the text holds, and gives its number, from 1 on; none at the end.
    pub(crate) fn next_into(&mut self, line: &mut String) -> Result<Option<u64>, Fault> {
        line.clear();
        self.number = self.number.saturating_add(1);
        match self.reader.read_line(line) {
            Ok(0) => Ok(None),
            Ok(_) => Ok(Some(self.number)),
            Err(e) if e.kind() == ErrorKind::InvalidData => {
                Err(Fault::Line(self.number, Expected::Text))
            }
            Err(e) => Err(Fault::Io(e)),
        }
    }
}
