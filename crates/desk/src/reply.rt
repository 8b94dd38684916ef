//! What the coordinator tells its clients.

use meaning::answer::Answer;
use store::letter::Letter;
use store::name::Txn;
use terms::copy::TryCopy;
use terms::memory::Memory;
use terms::same::Same;
use terms::seq::Seq;

/// Why a transaction aborted.
#[derive(Clone, Copy, Debug, PartialEq, Eq)]
pub enum Why {
    /// A site voted NO.
    Vote,
    /// A site refused an operation.
    Refused,
    /// It was given up.
    GivenUp,
    /// The coordinator restarted before it was decided.
    Restart,
    /// The commit row could not be kept.
    Store,
}

/// What a client hears of its transaction.
#[derive(Debug, Drop)]
pub enum Reply {
    Begun,
    /// What its statement answers.
    Answer(Answer),
    Committed,
    RolledBack,
    Aborted(Why),
}

/// A reply, and the transaction whose client hears it.
#[derive(Debug, Drop)]
pub struct Notice {
    pub txn: Txn,
    pub reply: Reply,
}

/// What a call puts out.
#[derive(Debug, Drop)]
pub struct Out {
    pub letters: Seq<Letter>,
    pub replies: Seq<Notice>,
    /// Whether the store did not refuse.
    pub kept: bool,
}

impl Same for Why {
    fn same(&self, other: &Why) -> bool {
        *self == *other
    }
}

impl TryCopy for Reply {
    fn copy(&self) -> Result<Reply, Memory> {
        match self {
            Reply::Begun => Ok(Reply::Begun),
            Reply::Answer(answer) => Ok(Reply::Answer(answer.copy()?)),
            Reply::Committed => Ok(Reply::Committed),
            Reply::RolledBack => Ok(Reply::RolledBack),
            Reply::Aborted(why) => Ok(Reply::Aborted(*why)),
        }
    }
}

impl Same for Reply {
    fn same(&self, other: &Reply) -> bool {
        match self {
            Reply::Begun => match other {
                Reply::Begun => true,
                _ => false,
            },
            Reply::Answer(answer) => match other {
                Reply::Answer(other) => answer.same(other),
                _ => false,
            },
            Reply::Committed => match other {
                Reply::Committed => true,
                _ => false,
            },
            Reply::RolledBack => match other {
                Reply::RolledBack => true,
                _ => false,
            },
            Reply::Aborted(why) => match other {
                Reply::Aborted(other) => why.same(other),
                _ => false,
            },
        }
    }
}

impl TryCopy for Notice {
    fn copy(&self) -> Result<Notice, Memory> {
        Ok(Notice {
            txn: self.txn,
            reply: self.reply.copy()?,
        })
    }
}

impl Same for Notice {
    fn same(&self, other: &Notice) -> bool {
        self.txn.same(&other.txn) && self.reply.same(&other.reply)
    }
}
