//! What is told of a machine that plays a script.

use std::alloc::Global;
use terms::memory::Memory;

/// How often a call is made: once more after memory ran out, and once more after the store refused.
pub(crate) const TRIES: usize = 3;

/// Which calls are made once more.
#[derive(Clone, Copy)]
pub(crate) struct Again {
    /// Those that found no memory; else the whole script is to be played anew.
    pub(crate) memory: bool,
    /// Those that the store refused.
    pub(crate) store: bool,
}

impl Again {
    /// All of them.
    pub(crate) const ALL: Again = Again {
        memory: true,
        store: true,
    };
}

/// What is told, line by line.
#[derive(Drop)]
pub(crate) struct Told {
    pub(crate) text: String,
    pub(crate) again: Again,
}

impl Told {
    pub(crate) fn new(alloc: Global, again: Again) -> Told {
        Told {
            text: String::new(alloc),
            again,
        }
    }

    pub(crate) fn line(&mut self, line: &str) -> Result<(), Memory> {
        self.text.push_str(line)?;
        self.text.push('\n')?;
        Ok(())
    }

    /// Memory ran out. Says whether the call is to be made once more.
    pub(crate) fn lacked_memory(&self) -> Result<bool, Memory> {
        if self.again.memory {
            Ok(true)
        } else {
            Err(Memory)
        }
    }
}

/// These texts, one after another.
pub(crate) fn joined(alloc: Global, pieces: &[&str]) -> Result<String, Memory> {
    let mut text = String::new(alloc);
    for piece in pieces {
        text.push_str(piece)?;
    }
    Ok(text)
}
