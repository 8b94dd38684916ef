//! The files that are named in a session, and who is told how far their rows are.

use crate::row_progress::RowProgress;
use databases::opened::{Opened, open_file};
use std::io;
use std::io::Read;
use std::rt::HostRuntime;

/// Opens files by their names, and knows who is told how far their rows are.
pub trait OpensText<T: Read> {
    /// Opens the file of this name, to be read. No clause says what it holds, since a file may change meanwhile.
    fn open_text(&self, name: &str) -> io::Result<T>;

    /// Who is told how far an import is. What is told has no clause.
    fn row_progress(&self) -> RowProgress<'_>;
}

impl OpensText<Opened<'static>> for HostRuntime {
    fn open_text(&self, name: &str) -> io::Result<Opened<'static>> {
        open_file(self, name)
    }

    fn row_progress(&self) -> RowProgress<'_> {
        RowProgress::at_terminal(self)
    }
}
