//! The laws of the protocol, each as the contract of a function that does nothing.

ghost use Rattle.std.specs.Prelude.{true};
ghost use Rattle.protocol.specs.Alone.{RefragmentsAlone};
ghost use Rattle.protocol.specs.Applied.{AppliedWholeAndOnce};
ghost use Rattle.protocol.specs.Catalogues.{ListLaw};
ghost use Rattle.protocol.specs.Client.{ReachedLaw, RoundsLaw};
ghost use Rattle.protocol.specs.ClientLaw.{ClientLaw, LetterByLetter};
ghost use Rattle.protocol.specs.Fitting.{StaysFitting};
ghost use Rattle.protocol.specs.OneClient.{OneAtATime};
ghost use Rattle.protocol.specs.Parts.{PartsOneAndTwo, PartThree};
ghost use Rattle.protocol.specs.Premise.{PremiseIsMet};
ghost use Rattle.protocol.specs.Recovery.{RecoveryLaw};
ghost use Rattle.protocol.specs.Refusing.{RequestLaw};
ghost use Rattle.protocol.specs.Rounds.{RoundByLetter};
ghost use Rattle.protocol.specs.Serial.{SerialLaw};
ghost use Rattle.protocol.specs.WithoutRefusal.{SmoothLaw};
ghost use Rattle.protocol.specs.Toy.{toy};
ghost use Rattle.protocol.specs.TwoSites.{one_leaf, two_sites};
ghost use Rattle.protocol.specs.TwoSplits.{two_splits};

/// The serial law: after every list of events the committed transactions, run one after another over
/// whole relations in the order of their first phases, give the answers that were given and what the
/// settled fragments rebuild.
pub fn serial_law()
    ensures { SerialLaw toy }
{}

/// The serial law where a statement brings the next catalogue into force: it and all before it are for the one
/// catalogue, all after it for the next, and the catalogue in force at the end is that of the serial run.
pub fn serial_law_of_two_splits()
    ensures { SerialLaw two_splits }
{}

/// The same over a list of catalogues, said without their numbers: after every list of events the committed
/// transactions, run one after another over whole relations, give the answers that were given and, under the
/// catalogue in force, what the settled fragments rebuild at every leaf of every site.
pub fn serial_law_of_a_list()
    ensures { ListLaw one_leaf two_sites }
{}

/// While a refragmentation is undecided nobody else is, no commit row stands, no prepared row is of a
/// committed transaction, and what is settled is kept; so after every list of events.
pub fn refragmentations_are_alone()
    ensures { RefragmentsAlone two_splits }
{}

/// The premise of the serial law is met by runs with every end: in each a row was moved as the move means it,
/// and the transaction was committed, or aborted by a vote No, or aborted by a restart of the coordinator
/// while its voters were in doubt, or rolled back.
pub fn premise_is_met()
    ensures { PremiseIsMet toy }
{}

/// After every list of events: the next event commits only a transaction that is viable, or has visited no
/// site; one in its first phase that isn't viable never will be again; where a viable one writes, nobody else
/// has a lock; and what it writes no later one reads that is viable or committed, and none writes that is
/// committed.
pub fn parts_one_and_two()
    ensures { PartsOneAndTwo toy }
{}

/// After every list of events: each transaction that is committed, or can still be, has read the
/// contents after the committed ones before it, with its own earlier writes; and the settled contents
/// are those after all committed ones.
pub fn part_three()
    ensures { PartThree toy }
{}

/// A committed transaction is applied whole and once, after every list of events: a ticket that was
/// acknowledged is gone; while a ticket is prepared for it the commit row stays, with that ticket among its
/// voters; and no Abort names such a ticket.
pub fn applied_whole_and_once()
    ensures { AppliedWholeAndOnce toy }
{}

/// A client's request does what it asks for, or is refused and leaves all as it was: refusals and turns fit,
/// the word of a refusal is true of the transaction, and giving up is never refused.
pub fn requests_do_or_are_refused()
    ensures { RequestLaw toy }
{}

/// One client alone, whose delivered letters are forgotten: a beginning, a call, a delivery of the oldest
/// letter and the loss of it lead from a world of a run to a world of a run, and there the serial law holds.
pub fn one_client_is_a_run()
    ensures { ReachedLaw toy }
{}

/// Nine rounds of deliveries are enough until no letter waits, whatever the stores answer: four after a
/// commit is asked for, and one after a rollback or where a transaction is given up.
pub fn nine_rounds_are_enough()
    ensures { RoundsLaw toy }
{}

/// The same letter by letter, for whoever counts rounds: each delivery leaves one letter less of those that
/// waited as the round began, and those that it brings about rank lower; also where the transaction is
/// given up within a round.
pub fn rounds_letter_by_letter()
    ensures { RoundByLetter toy }
{}

/// One client alone, whose letters come each once, oldest first, with every store call kept, no limit met
/// and no visit full: a transaction that began in a quiet world and asks for its commit is committed and
/// leaves a quiet world, each of its statements answered as it was evaluated; one that asks for a rollback
/// is rolled back.
pub fn one_client_commits()
    ensures { ClientLaw toy }
{}

/// The same letter by letter, and where something is refused: a statement that meets a full visit or loses
/// a letter at a limit ends its transaction or can be given up; a commit is aborted only where a store
/// refused a Prepare or the decision; whatever the end, all is quiet where no letter waits, as long as each
/// Commit and Abort is kept.
pub fn one_client_letter_by_letter()
    ensures { LetterByLetter toy }
{}

/// A database that comes up again over what its stores kept: once each site has asked about its prepared rows,
/// each of them comes to its end, as long as the store call of each Commit and Abort is kept; then all is quiet,
/// and nothing was done meanwhile but to end what was decided.
pub fn restarts_recover()
    ensures { RecoveryLaw toy }
{}

/// One transaction at a time: where all is quiet the fragments are those of the whole database after all
/// that was committed; a transaction that commits answers as its statements in turn over that whole
/// database and makes of it what they make; one that ends without a commit leaves it as it was; and so for
/// transactions one after another.
pub fn one_client_is_serial()
    ensures { OneAtATime toy }
{}

/// Whatever contents are said to fit their leaves: they do through all that one client does, as long as
/// what its statements write keeps them fitting; and so the rows that a site brings are well formed where
/// those of every fitting content are.
pub fn contents_stay_fitting()
    ensures { StaysFitting toy }
{}

/// One client alone, whose letters come smoothly, each store call kept, no limit met and no visit full: each
/// statement is answered, and a transaction that asks for its commit is committed. That the writes are of
/// leaves at the sites, and that rows fit, is no premise: where all that is evaluated is explained it follows,
/// since what the statements wrote is what they mean over the whole database.
pub fn one_client_smoothly()
    ensures { SmoothLaw toy 1 (λ leaf content. true) }
{}

/// So for a refragmentation: one that begins in a quiet world and whose letters come smoothly is answered, and
/// committed where its client asks for that.
pub fn one_refragmentation_smoothly()
    ensures { SmoothLaw two_splits 1 (λ leaf content. true) }
{}
