//! A statement: it starts, goes on as tickets and rows come, and is evaluated.

ghost use Rattle.std.specs.Prelude.{◌≡◌, ℕ, Bool, ◌∷◌, ◌++◌, Err, List, map, IfOk, OnErr, OnOk, [], true, Some, if◌then◌else◌};
ghost use Rattle.protocol.specs.Desk.{Choice, states, ticket_goes, Worked as WorkedDeed, Ask as ProtocolAsk, works};
ghost use Rattle.protocol.specs.Letters.{txn_name};
ghost use Rattle.desk.specs.declared.fetches.Ask.{Ask as AskNow};
ghost use Rattle.desk.specs.declared.refusal.Refusal.TheVariants as refusals;
ghost use Rattle.desk.specs.declared.transaction.TxnState.TheVariants as standings;
ghost use Rattle.desk.specs.declared.transaction.Stage.TheVariants as stages;
ghost use Rattle.desk.specs.Database.{Database, language};
ghost use Rattle.desk.specs.Evaluated.{ComesTo};
ghost use Rattle.desk.specs.Fetches.{fetched_with};
ghost use Rattle.desk.specs.Frame.{SendsOrStays};
ghost use Rattle.desk.specs.Opening.{HaveParticipants, opens, visits};
ghost use Rattle.desk.specs.Planned.{AreUnsentBy, AreUnsentFrom, IsOfPlan, unsent_by, unsent_from};
ghost use Rattle.desk.specs.Send.{AreShort, AsksAtHome, IsPast, asks_go, waits_in, writes_go, UnsentAtHome};
ghost use Rattle.desk.specs.Participants.{sites_of, changed_at, is_at, with_ticket};
ghost use Rattle.desk.specs.Transaction.{ask_of, undecided_of, stage_of, write_of};
ghost use Rattle.desk.specs.State.{IsIn};
ghost use Rattle.desk.specs.Statement.{answer_of, ask_sites, staged, write_sites};
ghost use Rattle.desk.specs.Does.{IsProgress};
ghost use Rattle.desk.specs.Request.{notices};
ghost use Rattle.desk.specs.Stepped.{goes_to, ticketed};
ghost use Rattle.desk.specs.Transition.{AreParticipants};
ghost use Rattle.std.specs.List.{AllByRecursion, Contains, list_any};
ghost use Rattle.std.specs.Option.{option_copied};
ghost use Rattle.desk.specs.declared.reply.Reply.TheVariants.{Answer as Answers};
ghost use Rattle.protocol.specs.Language.{Name};
ghost use Rattle.protocol.specs.Serial.{Explained};
ghost use Rattle.desk.specs.declared.participant.Participant.{Participant};
ghost use Rattle.desk.specs.OfCatalogue.{InForce, IsNextOf, IsOfCatalogue};
ghost use Rattle.catalog.specs.FragmentLeaf.{schemas_of};
ghost use Rattle.catalog.specs.Relation.{catalogue_of};
ghost use Rattle.meaning.specs.declared.statement.Statement.TheVariants as statements;
ghost use Rattle.meaning.specs.Meaning.{meaning};
ghost use Rattle.meaning.specs.Statement.{IsStatementOf};
ghost use Rattle.meaning.specs.Whole.{FitsSchema, Relations, rows_of};
ghost use Rattle.plan.specs.Given.{AreBrought};
ghost use Rattle.plan.specs.Reduced.{FindsAll};
ghost use Rattle.plan.specs.Postfix.{plan_of};
ghost use Rattle.plan.specs.Stated.{AreFetchesOf};
ghost use Rattle.plan.specs.Uniform.{EachRead, IsUniform};
ghost use Rattle.answers.specs.Moves.{moves_between};
ghost use Rattle.answers.specs.Table.{AreParts, given};
ghost use Rattle.answers.specs.Writes.{writes_between};
ghost use Rattle.meaning.specs.declared.statement.Statement.{Statement};
ghost use Rattle.desk.specs.declared.transaction.Unsent.{Unsent as UnsentNow};

use crate::fetches::{Ask, brought_with, unsent_by, unsent_of};
use crate::participant::{Participant, with_ticket};
use crate::refusal::Refusal;
use crate::reply::{Notice, Reply};
use crate::send;
use crate::send::{SentOut, asks_step, is_any_waiting, writes_step};
use crate::transaction::{Planned, Reading, Stage, Undecided, Unsent, Writing};
use crate::transition::heard;
use answers::finish::Outcome;
use answers::table::{FetchRows, are_all_parts};
use answers::work;
use answers::work::work;
use catalog::catalogue::Catalog;
use catalog::laws::leaf_names_are_unique;
use meaning::answer::Answer;
use meaning::statement::{Refragment, Statement};
use plan::fetch::Fetch;
use plan::postfix::Node;
use std::alloc::Global;
use std::mem;
use store::letter::Letter;
use store::name::{Ticket, Txn};
use store::reply::Rows;
use terms::copy::TryCopy;
use terms::memory::Memory;
use terms::seq::Seq;
use terms::text::Text;

/// Letters, and others after them.
pub(crate) fn joined(letters: Vec<Letter>, more: Vec<Letter>) -> Result<Vec<Letter>, Memory>
    ensures { IfOk result (λ all. all.items ≡ letters.items ++ more.items) }
{
    let mut letters = letters;
    let mut more = more;
    letters.append(&mut more)?;
    Ok(letters)
}

/// The new sites of fetches hear Open, and those fetches go out whose sites have given a ticket.
fn asks_begin(
    alloc: Global,
    txn: Txn,
    participants: &[Participant],
    asks: &mut Vec<Ask>,
) -> Result<SentOut, Refusal>
    ensures participants { IfOk result (λ going. going.participants.items ≡ (asks_go txn asks.old.items (visits (ask_sites asks.old.items) participants.now)).participants) }
    ensures letters { IfOk result (λ going. going.letters.items ≡ opens txn (ask_sites asks.old.items) participants.now ++ (asks_go txn asks.old.items (visits (ask_sites asks.old.items) participants.now)).letters) }
    ensures left { IfOk result (λ _. asks.new.items ≡ (asks_go txn asks.old.items (visits (ask_sites asks.old.items) participants.now)).left) }
    ensures short { AreShort participants.now → IfOk result (λ going. AreShort going.participants.items) }
    ensures full { result ≡ Err refusals.Full → IsPast (asks_go txn asks.old.items (visits (ask_sites asks.old.items) participants.now)).participants }
{
    let opened = send::open_for_asks(alloc, txn, participants, asks.as_slice())?;
    let SentOut {
        participants: visited,
        letters,
    } = opened;
    let mut visited = visited;
    let more = asks_step(alloc, txn, visited.as_mut_slice(), asks)?;
    Ok(SentOut {
        participants: visited,
        letters: joined(letters, more)?,
    })
}

/// A statement reads: its fetches were sent, or wait.
fn reading(undecided: &mut Undecided, participants: Vec<Participant>, reading: Reading)
    ensures participants { undecided.new.participants ≡ participants.items }
    ensures stage { undecided.new.stage ≡ stages.Reading reading }
    ensures moves { undecided.new.moves ≡ undecided.old.moves }
{
    undecided.participants = Seq::new(participants);
    stands(&mut undecided.stage, Stage::Reading(reading));
}

/// A statement that has fetches begins. The transaction is idle.
#[inline(always)]
pub(crate) fn reads(
    alloc: Global,
    txn: Txn,
    undecided: &mut Undecided,
    statement: Statement,
    plan: Planned,
    asks: Vec<Ask>,
    version: u64,
) -> Result<Progress, Refusal>
    ensures step { (db : Database) (choice : Choice (language db)) (first : AskNow) (rest : List AskNow) → asks.items ≡ first ∷ rest → AreParticipants db undecided.old.participants → HaveParticipants undecided.old.participants (ask_sites asks.items)
        → IfOk result (λ step. IsProgress db txn undecided.new step (states (txn_name txn) (undecided_of db undecided.old) (version, statement) (map (ask_of db) asks.items) choice)) }
    ensures within { (db : Database) → sites_of undecided.old.participants ≡ db.sites → AsksAtHome db asks.items → IsOfPlan db version statement plan asks.items → OnOk result (IsIn db version (standings.Undecided undecided.new)) }
    ensures sends { SendsOrStays undecided.old undecided.new (asks_go txn asks.items (visits (ask_sites asks.items) undecided.old.participants)).participants result }
    ensures moves { undecided.new.moves ≡ undecided.old.moves }
    ensures quiet { IfOk result (λ step. step.replies.items ≡ []) }
{
    let mut asks = asks;
    let going = asks_begin(alloc, txn, undecided.participants.as_slice(), &mut asks)?;
    reading(
        undecided,
        going.participants,
        Reading {
            version,
            statement,
            plan,
            asks,
        },
    );
    Ok(quiet(alloc, going.letters))
}

/// What a step of a statement brings about: the letters put out, and what its client hears.
#[derive(Drop)]
pub(crate) struct Progress {
    pub(crate) letters: Vec<Letter>,
    pub(crate) replies: Vec<Notice>,
}

/// Letters go out, and the client hears nothing yet.
fn quiet(alloc: Global, letters: Vec<Letter>) -> Progress
    ensures letters { result.letters ≡ letters }
    ensures replies { result.replies.items ≡ [] }
{
    Progress {
        letters,
        replies: Vec::new(alloc),
    }
}

/// Nothing goes out.
pub(crate) fn no_progress(alloc: Global) -> Progress
    ensures letters { result.letters.items ≡ [] }
    ensures replies { result.replies.items ≡ [] }
{
    quiet(alloc, Vec::new(alloc))
}

/// What the client of a statement hears whose writes go out: the answer, unless one waits.
fn heard_of(
    alloc: Global,
    txn: Txn,
    participants: &[Participant],
    writing: &Writing,
) -> Result<Vec<Notice>, Memory>
    ensures { IfOk result (λ replies. replies.items ≡ (if list_any (waits_in participants.now) writing.now.unsent.items then [] else notices txn (Some (Answers writing.now.answer)))) }
{
    if is_any_waiting(writing.unsent.as_slice(), participants) {
        return Ok(Vec::new(alloc));
    }
    heard(alloc, txn, Reply::Answer(writing.answer.copy()?))
}

/// The writes whose sites have given a ticket go out. With the last of them the answer is given.
fn writing_goes(
    alloc: Global,
    txn: Txn,
    participants: &mut [Participant],
    writing: &mut Writing,
) -> Result<Progress, Refusal>
    ensures participants { OnOk result (participants.new ≡ (writes_go txn writing.old.unsent.items participants.old).participants) }
    ensures letters { IfOk result (λ step. step.letters.items ≡ (writes_go txn writing.old.unsent.items participants.old).letters) }
    ensures left { OnOk result (writing.new.unsent.items ≡ (writes_go txn writing.old.unsent.items participants.old).left) }
    ensures answer { OnOk result (writing.new.answer ≡ writing.old.answer) }
    ensures replies { IfOk result (λ step. step.replies.items ≡ answer_of txn writing.old.answer writing.new.unsent.items) }
    ensures short { AreShort participants.old → OnOk result (AreShort participants.new) }
    ensures full { result ≡ Err refusals.Full → IsPast (writes_go txn writing.old.unsent.items participants.old).participants }
    ensures same { OnErr result (writing.new ≡ writing.old) }
{
    let replies = heard_of(alloc, txn, participants, writing)?;
    let letters = writes_step(alloc, txn, participants, &mut writing.unsent)?;
    Ok(Progress { letters, replies })
}

/// A transaction stands here from now on.
fn stands(stage: &mut Stage, next: Stage)
    ensures { stage.new ≡ next }
{
    drop(mem::replace(stage, next));
}

/// What waits for tickets goes out where they have come. With the last write the statement is answered.
#[inline(always)]
fn stage_goes(
    alloc: Global,
    txn: Txn,
    participants: &mut [Participant],
    stage: &mut Stage,
) -> Result<Progress, Refusal>
    ensures step { (db : Database) (choice : Choice (language db)) (moves : Bool) → IfOk result (λ step. IsProgress db txn (staged participants.new stage.new moves) step
        (ticket_goes (txn_name txn) (undecided_of db (staged participants.old stage.old moves)) choice (stage_of db participants.old stage.old))) }
    ensures within { (db : Database) (n : ℕ) (moves : Bool) → IsIn db n (standings.Undecided (staged participants.old stage.old moves)) → OnOk result (IsIn db n (standings.Undecided (staged participants.new stage.new moves))) }
    ensures short { AreShort participants.old → OnOk result (AreShort participants.new) }
    ensures full { result ≡ Err refusals.Full → IsPast (goes_to txn participants.old stage.old) }
    ensures same { OnErr result (stage.new ≡ stage.old) }
{
    match stage {
        Stage::Idle | Stage::Voting => Ok(no_progress(alloc)),
        Stage::Reading(reading) => {
            let letters = asks_step(alloc, txn, participants, &mut reading.asks)?;
            Ok(quiet(alloc, letters))
        }
        Stage::Writing(writing) => {
            let step = writing_goes(alloc, txn, participants, writing)?;
            if writing.unsent.is_empty() {
                stands(stage, Stage::Idle);
            }
            Ok(step)
        }
    }
}

/// A first ticket of a site comes: what waited for it goes out. With the last write the answer is given.
#[inline(always)]
pub(crate) fn ticket_goes(
    alloc: Global,
    txn: Txn,
    undecided: &mut Undecided,
    site: &Text,
    ticket: Ticket,
) -> Result<Progress, Refusal>
    ensures step { (db : Database) (choice : Choice (language db)) → list_any (is_at site.now) undecided.old.participants ≡ true
        → IfOk result (λ step. IsProgress db txn undecided.new step
        (ticket_goes (txn_name txn) (ticketed db undecided.old site.now ticket) choice (stage_of db undecided.old.participants undecided.old.stage))) }
    ensures within { (db : Database) (n : ℕ) → IsIn db n (standings.Undecided undecided.old) → OnOk result (IsIn db n (standings.Undecided undecided.new)) }
    ensures sends { SendsOrStays undecided.old undecided.new (goes_to txn (map (changed_at site.now (with_ticket (Some ticket))) undecided.old.participants) undecided.old.stage) result }
{
    let participants = with_ticket(alloc, undecided.participants.as_slice(), site, ticket)?;
    let mut participants = participants;
    let step = stage_goes(
        alloc,
        txn,
        participants.as_mut_slice(),
        &mut undecided.stage,
    )?;
    undecided.participants = Seq::new(participants);
    Ok(step)
}

/// What a statement answers, and its writes with their sites.
#[derive(Drop)]
pub(crate) struct Worked {
    pub(crate) answer: Answer,
    pub(crate) unsent: Vec<Unsent>,
}

/// A statement is evaluated, by its plan and by what its fetches brought. `next` is the catalogue that comes next, if one does.
pub(crate) fn evaluate(
    alloc: Global,
    catalog: &Catalog,
    next: Option<&Catalog>,
    statement: &Statement,
    plan: &Planned,
    fetched: &[FetchRows],
) -> Result<Worked, Memory>
    ensures { ComesTo catalog.now (option_copied next.entry) statement.now plan.now fetched.now result }
{
    leaf_names_are_unique();
    let fetches = plan.fetches();
    // Each list of rows was looked at as it came, so nothing is turned away here.
    if !are_all_parts(fetches, fetched) {
        return Err(Memory);
    }
    let nodes = plan.nodes();
    if !statement.is_refragment() {
        return outcome_of(alloc, catalog, statement, nodes, fetches, fetched);
    }
    // No relation gets another split where no catalogue comes next, so nothing is turned away here.
    let (Statement::Refragment(refragment), Some(next)) = (statement, next) else {
        return Err(Memory);
    };
    moves_of(alloc, catalog, next, refragment, nodes, fetches, fetched)
}

/// What a statement comes to once these rows have come, which were the last that it waited for.
pub(crate) fn worked_out<'a>(
    alloc: Global,
    catalog: &Catalog,
    next: Option<&Catalog>,
    statement: &Statement,
    plan: &Planned,
    asks: &'a [Ask],
    rows: &'a Rows,
) -> Result<Worked, Memory>
    ensures { ComesTo catalog.now (option_copied next.entry) statement.now plan.now (map (fetched_with rows.now.parts) asks.now) result }
{
    let fetched = brought_with(alloc, rows, asks)?;
    evaluate(alloc, catalog, next, statement, plan, fetched.as_slice())
}

/// So a statement that leaves the split of each relation as it is.
fn outcome_of(
    alloc: Global,
    catalog: &Catalog,
    statement: &Statement,
    nodes: &[Node],
    fetches: &[Fetch],
    fetched: &[FetchRows],
) -> Result<Worked, Memory>
    requires fetched { EachRead (λ read. Contains fetches.now read) (plan_of nodes.now) }
    requires uniform { IsUniform (plan_of nodes.now) }
    requires parts { AllByRecursion (λ read. AreParts read.columns (given fetched.now read.leaf)) fetches.now }
    ensures answer { IsStatementOf (schemas_of (catalogue_of catalog.now)) statement.now → AreFetchesOf (catalogue_of catalog.now) statement.now fetches.now → FindsAll (catalogue_of catalog.now) statement.now fetches.now (plan_of nodes.now)
        → IfOk result (λ worked. (whole : Relations) → FitsSchema (schemas_of (catalogue_of catalog.now)) whole → AreBrought (catalogue_of catalog.now) whole fetches.now (given fetched.now) → worked.answer ≡ (meaning statement.now whole).0) }
    ensures writes { IsStatementOf (schemas_of (catalogue_of catalog.now)) statement.now → AreFetchesOf (catalogue_of catalog.now) statement.now fetches.now → FindsAll (catalogue_of catalog.now) statement.now fetches.now (plan_of nodes.now)
        → IfOk result (λ worked. (whole : Relations) → FitsSchema (schemas_of (catalogue_of catalog.now)) whole → AreBrought (catalogue_of catalog.now) whole fetches.now (given fetched.now)
        → worked.unsent.items ≡ map (unsent_from (catalogue_of catalog.now)) (writes_between (catalogue_of catalog.now) whole (meaning statement.now whole).1)) }
    ensures leaves { IfOk result (λ worked. AreUnsentFrom (catalogue_of catalog.now) worked.unsent.items) }
{
    let outcome = work(alloc, catalog, statement, nodes, fetches, fetched)?;
    let Outcome { answer, writes } = outcome;
    let unsent = unsent_of(alloc, catalog, writes.into_vec())?;
    Ok(Worked { answer, unsent })
}

/// So a REFRAGMENT: its writes are the moves to the next catalogue's split.
fn moves_of(
    alloc: Global,
    catalog: &Catalog,
    next: &Catalog,
    refragment: &Refragment,
    nodes: &[Node],
    fetches: &[Fetch],
    fetched: &[FetchRows],
) -> Result<Worked, Memory>
    requires fetched { EachRead (λ read. Contains fetches.now read) (plan_of nodes.now) }
    requires uniform { IsUniform (plan_of nodes.now) }
    requires parts { AllByRecursion (λ read. AreParts read.columns (given fetched.now read.leaf)) fetches.now }
    ensures answer { IsStatementOf (schemas_of (catalogue_of catalog.now)) (statements.Refragment refragment.now) → AreFetchesOf (catalogue_of catalog.now) (statements.Refragment refragment.now) fetches.now → FindsAll (catalogue_of catalog.now) (statements.Refragment refragment.now) fetches.now (plan_of nodes.now)
        → IfOk result (λ worked. (whole : Relations) → FitsSchema (schemas_of (catalogue_of catalog.now)) whole → AreBrought (catalogue_of catalog.now) whole fetches.now (given fetched.now) → worked.answer ≡ (meaning (statements.Refragment refragment.now) whole).0) }
    ensures moves { IsStatementOf (schemas_of (catalogue_of catalog.now)) (statements.Refragment refragment.now) → AreFetchesOf (catalogue_of catalog.now) (statements.Refragment refragment.now) fetches.now → FindsAll (catalogue_of catalog.now) (statements.Refragment refragment.now) fetches.now (plan_of nodes.now)
        → IfOk result (λ worked. (whole : Relations) → FitsSchema (schemas_of (catalogue_of catalog.now)) whole → AreBrought (catalogue_of catalog.now) whole fetches.now (given fetched.now)
        → worked.unsent.items ≡ map unsent_by (moves_between (catalogue_of catalog.now) (catalogue_of next.now) refragment.now.relation.name (rows_of whole refragment.now.relation.name))) }
    ensures leaves { IfOk result (λ worked. AreUnsentBy (catalogue_of catalog.now) (catalogue_of next.now) worked.unsent.items) }
{
    let made = work::refragment(alloc, catalog, next, refragment, nodes, fetches, fetched)?;
    let unsent = unsent_by(alloc, made.moves)?;
    Ok(Worked {
        answer: made.answer,
        unsent,
    })
}

/// The new sites of writes hear Open, and those writes go out whose sites have given a ticket.
fn writes_begin(
    alloc: Global,
    txn: Txn,
    participants: &[Participant],
    unsent: &mut Vec<Unsent>,
) -> Result<SentOut, Refusal>
    ensures participants { IfOk result (λ going. going.participants.items ≡ (writes_go txn unsent.old.items (visits (write_sites unsent.old.items) participants.now)).participants) }
    ensures letters { IfOk result (λ going. going.letters.items ≡ opens txn (write_sites unsent.old.items) participants.now ++ (writes_go txn unsent.old.items (visits (write_sites unsent.old.items) participants.now)).letters) }
    ensures left { IfOk result (λ _. unsent.new.items ≡ (writes_go txn unsent.old.items (visits (write_sites unsent.old.items) participants.now)).left) }
    ensures short { AreShort participants.now → IfOk result (λ going. AreShort going.participants.items) }
    ensures full { result ≡ Err refusals.Full → IsPast (writes_go txn unsent.old.items (visits (write_sites unsent.old.items) participants.now)).participants }
{
    let opened = send::open_for_writes(alloc, txn, participants, unsent.as_slice())?;
    let SentOut {
        participants: visited,
        letters,
    } = opened;
    let mut visited = visited;
    let more = writes_step(alloc, txn, visited.as_mut_slice(), unsent)?;
    Ok(SentOut {
        participants: visited,
        letters: joined(letters, more)?,
    })
}

/// The answer is given where no write waits.
fn put_writes(
    alloc: Global,
    txn: Txn,
    stage: &mut Stage,
    answer: Answer,
    waiting: Vec<Unsent>,
) -> Result<Vec<Notice>, Memory>
    ensures replies { IfOk result (λ replies. replies.items ≡ answer_of txn answer waiting.items) }
    ensures answered { waiting.items ≡ [] → OnOk result (stage.new ≡ stages.Idle) }
    ensures waits { (first : UnsentNow) (rest : List UnsentNow) → waiting.items ≡ first ∷ rest
        → OnOk result (stage.new ≡ stages.Writing (record { answer = answer; unsent = waiting })) }
    ensures same { OnErr result (stage.new ≡ stage.old) }
{
    if waiting.is_empty() {
        let replies = heard(alloc, txn, Reply::Answer(answer))?;
        stands(stage, Stage::Idle);
        return Ok(replies);
    }
    let writing = Writing {
        answer,
        unsent: waiting,
    };
    stands(stage, Stage::Writing(writing));
    Ok(Vec::new(alloc))
}

/// A statement is evaluated to an answer and writes.
pub(crate) fn works(
    alloc: Global,
    txn: Txn,
    undecided: &mut Undecided,
    answer: Answer,
    unsent: Vec<Unsent>,
) -> Result<Progress, Refusal>
    ensures step { (db : Database) (stated : ℕ × Statement) (asks : List (ProtocolAsk (language db))) → AreParticipants db undecided.old.participants → HaveParticipants undecided.old.participants (write_sites unsent.items)
        → IfOk result (λ step. IsProgress db txn undecided.new step (works (txn_name txn) (undecided_of db undecided.old) stated asks (answer, map write_of unsent.items))) }
    ensures within { (db : Database) (n : ℕ) → sites_of undecided.old.participants ≡ db.sites → UnsentAtHome db unsent.items → OnOk result (IsIn db n (standings.Undecided undecided.new)) }
    ensures sends { SendsOrStays undecided.old undecided.new (writes_go txn unsent.items (visits (write_sites unsent.items) undecided.old.participants)).participants result }
{
    if unsent.is_empty() {
        let replies = put_writes(alloc, txn, &mut undecided.stage, answer, unsent)?;
        return Ok(Progress {
            letters: Vec::new(alloc),
            replies,
        });
    }
    let mut unsent = unsent;
    let going = writes_begin(alloc, txn, undecided.participants.as_slice(), &mut unsent)?;
    let replies = put_writes(alloc, txn, &mut undecided.stage, answer, unsent)?;
    undecided.participants = Seq::new(going.participants);
    Ok(Progress {
        letters: going.letters,
        replies,
    })
}
