//! The words that make a statement.

ghost use Rattle.std.specs.Prelude.{◌≡◌};
ghost use Rattle.std.specs.List.{find};
ghost use Rattle.std.specs.Str.{str_eq_ignore_ascii_case};
ghost use Rattle.reader.specs.Keyword.{keyword_text};
ghost use Rattle.reader.specs.Reading.{keyword_of};

/// A word with a meaning of its own, in any case of its letters. No name is one.
#[derive(Clone, Copy, Debug, PartialEq, Eq)]
pub enum Keyword {
    Select,
    From,
    Join,
    On,
    Where,
    And,
    Insert,
    Into,
    Values,
    Update,
    Set,
    Delete,
    Begin,
    Commit,
    Rollback,
    Refragment,
}

/// The keywords of so many letters, for the numbers that most words have.
const OF_TWO: [Keyword; 1] = [Keyword::On];

const OF_THREE: [Keyword; 2] = [Keyword::And, Keyword::Set];

const OF_FOUR: [Keyword; 3] = [Keyword::From, Keyword::Join, Keyword::Into];

const OF_FIVE: [Keyword; 2] = [Keyword::Where, Keyword::Begin];

const OF_SIX: [Keyword; 6] = [
    Keyword::Select,
    Keyword::Insert,
    Keyword::Values,
    Keyword::Update,
    Keyword::Delete,
    Keyword::Commit,
];

/// Each keyword.
const KEYWORDS: [Keyword; 16] = [
    Keyword::Select,
    Keyword::From,
    Keyword::Join,
    Keyword::On,
    Keyword::Where,
    Keyword::And,
    Keyword::Insert,
    Keyword::Into,
    Keyword::Values,
    Keyword::Update,
    Keyword::Set,
    Keyword::Delete,
    Keyword::Begin,
    Keyword::Commit,
    Keyword::Rollback,
    Keyword::Refragment,
];

impl Keyword {
    /// The word in capitals.
    pub fn text(self) -> &'static [u8]
        ensures { result.now ≡ keyword_text self }
    {
        match self {
            Keyword::Select => b"SELECT",
            Keyword::From => b"FROM",
            Keyword::Join => b"JOIN",
            Keyword::On => b"ON",
            Keyword::Where => b"WHERE",
            Keyword::And => b"AND",
            Keyword::Insert => b"INSERT",
            Keyword::Into => b"INTO",
            Keyword::Values => b"VALUES",
            Keyword::Update => b"UPDATE",
            Keyword::Set => b"SET",
            Keyword::Delete => b"DELETE",
            Keyword::Begin => b"BEGIN",
            Keyword::Commit => b"COMMIT",
            Keyword::Rollback => b"ROLLBACK",
            Keyword::Refragment => b"REFRAGMENT",
        }
    }

    /// The keyword that a word is, in any case of its letters.
    pub(crate) fn of_word(word: &[u8]) -> Option<Keyword>
        ensures { result ≡ keyword_of word.now }
    {
        match word.len() {
            2 => among(&OF_TWO, word),
            3 => among(&OF_THREE, word),
            4 => among(&OF_FOUR, word),
            5 => among(&OF_FIVE, word),
            6 => among(&OF_SIX, word),
            _ => among(&KEYWORDS, word),
        }
    }
}

/// The first of these keywords that a word is, in any case of its letters.
fn among(keywords: &[Keyword], word: &[u8]) -> Option<Keyword>
    ensures { result ≡ find (λ keyword. str_eq_ignore_ascii_case word.now (keyword_text keyword)) keywords.now }
{
    keywords
        .iter()
        .copied()
        .find(|keyword| word.eq_ignore_ascii_case(keyword.text()))
}
