//! What a line of a script is answered by.

ghost use Rattle.std.specs.Prelude.{◌≡◌};
ghost use Rattle.lines.specs.Reply as spec;
ghost use Rattle.lines.specs.Reply.{told_by, text_of};

/// The answer to a line of a script, as it is printed, with no line feed at its end.
#[derive(Drop)]
pub enum Reply {
    /// What the line asked for.
    Answer(String),
    /// Why the line was refused.
    Refusal(String),
}

impl Reply {
    /// What is printed.
    pub fn text(&self) -> &str
        ensures { result.now ≡ text_of (told_by self.now) }
    {
        match self {
            Reply::Answer(text) | Reply::Refusal(text) => text.as_str(),
        }
    }

    /// Whether the line was refused.
    pub fn is_refusal(&self) -> bool
        ensures { result ≡ spec.is_refusal (told_by self.now) }
    {
        matches!(self, Reply::Refusal(_))
    }
}
