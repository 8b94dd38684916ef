//! The gate that letters to sites pass.

use store::letter::Letter;
use terms::text::Text;

/// Whether a site may take a letter already. Each site's thread asks before each letter, holding no lock.
pub trait Gate {
    /// Whether the site may take the letter. A thread asks again while it may not, at most 1,000,000 times in all.
    fn ready(&self, site: &Text, letter: &Letter) -> bool;

    /// The site has taken the letter.
    fn done(&self, site: &Text, letter: &Letter);
}

/// A gate that is always open.
#[derive(Clone, Copy, Debug)]
pub struct Ungated;

impl Gate for Ungated {
    fn ready(&self, _site: &Text, _letter: &Letter) -> bool {
        true
    }

    fn done(&self, _site: &Text, _letter: &Letter) {}
}
