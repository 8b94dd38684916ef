//! What a request of the command line names.

ghost use Rattle.std.specs.Prelude.{◌≡◌};
ghost use Rattle.lines.specs.Request.{catalog_of, file_of, is_of_input, is_typed, mode_of, session_mode};
ghost use Rattle.lines.specs.Usage.{explains, is_interactive, stores_of};

use crate::usage::{Request, Stores};
use forms::mode::Mode;

impl<'a> Request<'a> {
    /// The file that is to be read: a script or a catalogue.
    pub fn file(&self) -> &'a str
        ensures { result ≡ file_of self.now }
    {
        match self {
            Request::Solo { script, .. } | Request::Play { script, .. } => script,
            Request::Check { catalog, .. } | Request::Plan { catalog, .. } => catalog,
        }
    }

    /// The file of a catalogue that is to be read besides, if there is one.
    pub fn catalog(&self) -> Option<&'a str>
        ensures { result ≡ catalog_of self.now }
    {
        match self {
            Request::Solo { catalog, .. } | Request::Play { catalog, .. } => *catalog,
            _ => None,
        }
    }

    /// Whether it is to be explained why something is refused.
    pub fn explains(&self) -> bool
        ensures { result ≡ explains self.now }
    {
        match self {
            Request::Solo { explain, .. } | Request::Check { explain, .. } => *explain,
            _ => false,
        }
    }

    /// Whether each line is to be asked for, wherever it comes from.
    pub fn is_interactive(&self) -> bool
        ensures { result ≡ is_interactive self.now }
    {
        match self {
            Request::Solo { interactive, .. } => *interactive,
            _ => false,
        }
    }

    /// Whether lines for a database are to be read from standard input.
    pub fn is_typed(&self) -> bool
        ensures { result ≡ is_typed self.now }
    {
        match self {
            Request::Solo { script, .. } => *script == "-",
            _ => false,
        }
    }

    /// Where the stores of its database are.
    pub fn stores(&self) -> Stores<'a>
        ensures { result ≡ stores_of self.now }
    {
        match self {
            Request::Solo { dir: Some(dir), .. } => Stores::Folder(dir),
            Request::Solo { sqlite: true, .. } | Request::Play { sqlite: true, .. } => {
                Stores::InMemory
            }
            _ => Stores::Lists,
        }
    }

    /// How answers are to be shown.
    pub fn mode(&self) -> Mode
        ensures { result ≡ mode_of self.now }
    {
        match self {
            Request::Solo { mode, .. } => *mode,
            _ => Mode::Tabs,
        }
    }

    /// How answers are to be shown in a session, until something else is asked for: in columns, unless the command line
    /// asks for another form.
    pub fn session_mode(&self) -> Mode
        ensures { result ≡ session_mode (mode_of self.now) }
    {
        match self.mode() {
            Mode::Tabs => Mode::Columns,
            mode => mode,
        }
    }

    /// Whether a script is to be read from standard input.
    pub fn is_of_input(&self) -> bool
        ensures { result ≡ is_of_input self.now }
    {
        match self {
            Request::Solo { script, .. } | Request::Play { script, .. } => *script == "-",
            _ => false,
        }
    }
}
