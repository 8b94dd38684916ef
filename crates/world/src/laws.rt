//! The laws of the protocol, of the language of each catalogue's database: each as the contract of a function
//! that changes nothing.

ghost use Rattle.std.specs.Prelude.{◌≡◌, ◌∷◌, List, map};
ghost use Rattle.std.specs.List.{AllByRecursion};
ghost use Rattle.catalog.specs.Catalogue.{Catalogue, IsValidCatalogue};
ghost use Rattle.catalog.specs.Chain.{Follow};
ghost use Rattle.catalog.specs.Formed.{IsFormed};
ghost use Rattle.catalog.specs.Relation.{catalogue_of};
ghost use Rattle.protocol.specs.Applied.{AppliedWholeAndOnce};
ghost use Rattle.protocol.specs.Catalogues.{IsLawfulList, ListLaw};
ghost use Rattle.protocol.specs.Client.{ReachedLaw, RoundsLaw};
ghost use Rattle.protocol.specs.ClientLaw.{LetterByLetter};
ghost use Rattle.protocol.specs.Fitting.{StaysFitting};
ghost use Rattle.protocol.specs.Language.{IsLawful};
ghost use Rattle.protocol.specs.Local.{local};
ghost use Rattle.protocol.specs.OneClient.{OneAtATime};
ghost use Rattle.protocol.specs.Parts.{PartThree, PartsOneAndTwo};
ghost use Rattle.protocol.specs.Recovery.{RecoveryLaw};
ghost use Rattle.protocol.specs.Rounds.{RoundByLetter};
ghost use Rattle.protocol.specs.Serial.{SerialLaw};
ghost use Rattle.desk.specs.Database.{Database, language, statements};
ghost use Rattle.desk.specs.CatalogueDatabase.{IsBase, database, databases, fits};
ghost use Rattle.world.specs.Commands.{CommandsFollow, MovesFollow};
ghost use Rattle.world.specs.Executed.{ObeysUnlessRefused};
ghost use Rattle.world.specs.Recovery.{BeginsAnewLaw, ComingUpLaw, ListBeginsAnewLaw, ListComingUpLaw};
ghost use Rattle.world.specs.Listed.{IsListed};
ghost use Rattle.world.specs.ListServed.{ListHeardIsSerial, ListServedIsSerial};
ghost use Rattle.world.specs.Runs.{RunsAreSerial, RunsHold};
ghost use Rattle.world.specs.Client.{ServedIsSerial};
ghost use Rattle.world.specs.Settling.{GrowsQuiet};
ghost use Rattle.world.specs.Start.{ListNewStoresLaw, NewStoresLaw};
ghost use Rattle.world.specs.Smoothly.{ServesSmoothly, ServesUnlessRefused};
ghost use Rattle.world.specs.Stopping.{StopsForMemory};
ghost use Rattle.world.specs.declared.machines.Machines.{Machines as MachinesNow};

use answers::laws::{moves_lead, writes_lead};
use catalog::catalogue::Catalog;
use catalog::chain::Chain;
use catalog::laws::leaf_names_are_unique;
use plan::laws::{contents_ascend, fetches_are_told};
use reader::read::one_command;
use store::plain_desk::PlainDesk;
use store::plain_site::PlainSite;

/// Each catalogue has a database: its sites, leaves, statements and writes are those of the catalogue.
pub fn database_is_of_catalogue(catalog: &Catalog)
    ensures { IsBase (database (catalogue_of catalog.now)) }
{
    catalog.relations();
    leaf_names_are_unique();
    contents_ascend();
    fetches_are_told();
}

/// The list of catalogues of this database is lawful, and so is its language: a statement leaves a whole
/// database of the schema, and its writes lead from the contents of all places before it to those after it.
pub fn language_is_lawful(catalog: &Catalog)
    ensures of_list { IsLawfulList local (statements (database (catalogue_of catalog.now))) }
    ensures of_language { IsLawful (language (database (catalogue_of catalog.now))) }
{
    catalog.relations();
    contents_ascend();
    writes_lead();
}

/// These catalogues are formed as each one is.
pub(crate) fn are_formed(catalogs: &[Catalog])
    ensures formed { AllByRecursion (λ catalog. IsFormed (catalogue_of catalog)) catalogs.now }
    ensures valid { AllByRecursion (λ catalog. IsValidCatalogue (catalogue_of catalog)) catalogs.now }
{
    if let Some((first, rest)) = catalogs.split_first() {
        let _relations = first.relations();
        are_formed(rest);
    }
}

/// So of catalogues each of which splits one relation otherwise than the one before it: their list is lawful, where a REFRAGMENT brings the
/// next one into force and moves the parts of its relation.
pub fn chains_are_lawful(catalogs: &[Catalog])
    ensures { (first : Catalogue) (rest : List Catalogue) → map catalogue_of catalogs.now ≡ first ∷ rest → Follow first rest → IsLawfulList local (statements (databases first rest)) }
{
    are_formed(catalogs);
    contents_ascend();
    writes_lead();
    moves_lead();
}

/// A chain has a database: that of its catalogues, whose list is lawful.
pub fn chain_is_listed(chain: &Chain)
    ensures { (first : Catalogue) (rest : List Catalogue) → map catalogue_of chain.now ≡ first ∷ rest → IsListed (databases first rest) }
{
    let catalogs = chain.as_slice();
    are_formed(catalogs);
    leaf_names_are_unique();
    contents_ascend();
    fetches_are_told();
    writes_lead();
    moves_lead();
}

/// A catalogue alone is such a list, in which it has every number.
pub fn catalogue_is_listed(catalog: &Catalog)
    ensures { IsListed (database (catalogue_of catalog.now)) }
{
    database_is_of_catalogue(catalog);
    language_is_lawful(catalog);
}

/// The serial law of each lawful list of catalogues, of the machines at hand: after each run of them, with the letters that they put out,
/// whichever catalogue comes into force.
pub fn runs_are_serial()
    ensures { (db : Database) → IsListed db → RunsAreSerial db }
{}

/// The invariant holds of the machines at hand: after each run of them.
pub fn runs_hold()
    ensures { (db : Database) → IsListed db → RunsHold db }
{}

/// So of a client's database over such a list, and by what its client asked for and heard.
pub fn list_served_is_serial()
    ensures serial { (db : Database) → IsListed db → ListServedIsSerial db }
    ensures heard { (db : Database) → IsListed db → ListHeardIsSerial db }
{}

/// And the serial law holds of their list: the committed transactions, ordinary ones and REFRAGMENTs, give the answers that were given and,
/// under the catalogue in force, what the settled fragments rebuild.
pub fn serial_law_of_chains(catalogs: &[Catalog])
    ensures { (first : Catalogue) (rest : List Catalogue) → map catalogue_of catalogs.now ≡ first ∷ rest → Follow first rest → ListLaw local (statements (databases first rest)) }
{
    chains_are_lawful(catalogs);
}

/// The serial law: of each catalogue and after each list of events the committed transactions, run one after
/// another over whole relations in the order of their first phases, give the answers that were given and
/// what the settled fragments rebuild; of the list, without the numbers of catalogues.
pub fn serial_law(catalog: &Catalog)
    ensures of_list { ListLaw local (statements (database (catalogue_of catalog.now))) }
    ensures of_language { SerialLaw (language (database (catalogue_of catalog.now))) }
{
    language_is_lawful(catalog);
}

/// A committed transaction is applied whole and once, after every list of events.
pub fn applied_whole_and_once(catalog: &Catalog)
    ensures { AppliedWholeAndOnce (language (database (catalogue_of catalog.now))) }
{
    language_is_lawful(catalog);
}

/// Only a viable transaction is committed, after every list of events; one that can no longer commit never can
/// again; where a viable one writes, nobody else has a lock, and what it writes no later one reads that counts.
pub fn parts_one_and_two(catalog: &Catalog)
    ensures { PartsOneAndTwo (language (database (catalogue_of catalog.now))) }
{
    language_is_lawful(catalog);
}

/// Each transaction that is committed, or can still be, has read the contents after the committed ones before
/// it, with its own earlier writes; and the settled contents are those after all committed ones.
pub fn part_three(catalog: &Catalog)
    ensures { PartThree (language (database (catalogue_of catalog.now))) }
{
    language_is_lawful(catalog);
}

/// One client alone, whose delivered letters are forgotten, goes from a world of a run to a world of a run.
pub fn one_client_is_a_run(catalog: &Catalog)
    ensures { ReachedLaw (language (database (catalogue_of catalog.now))) }
{
    language_is_lawful(catalog);
}

/// One client alone, letter by letter, and where something is refused: only a store that refuses is an
/// excuse of a commit that aborts.
pub fn one_client_letter_by_letter(catalog: &Catalog)
    ensures { LetterByLetter (language (database (catalogue_of catalog.now))) }
{
    catalog.relations();
    language_is_lawful(catalog);
}

/// One transaction at a time: each that commits answers as its statements in turn over the whole database
/// that the fragments were before it, and each other changes nothing.
pub fn one_client_is_serial(catalog: &Catalog)
    ensures { OneAtATime (language (database (catalogue_of catalog.now))) }
{
    language_is_lawful(catalog);
}

/// Nine rounds of deliveries are enough until no letter waits.
pub fn nine_rounds_are_enough()
    ensures { (catalogue : Catalogue) → RoundsLaw (language (database catalogue)) }
{}

/// The same letter by letter.
pub fn rounds_letter_by_letter()
    ensures { (catalogue : Catalogue) → RoundByLetter (language (database catalogue)) }
{}

/// Contents that fit their leaves stay so, as long as what is written keeps them fitting.
pub fn contents_stay_fitting(catalog: &Catalog)
    ensures { StaysFitting (language (database (catalogue_of catalog.now))) }
{
    language_is_lawful(catalog);
}

/// The serial law of a client's database: the committed transactions, one after another over whole relations, give the answers that were
/// given and what the settled fragments rebuild.
pub fn served_is_serial(catalog: &Catalog)
    ensures { ServedIsSerial (database (catalogue_of catalog.now)) }
{
    one_client_is_a_run(catalog);
}

/// What happens to a client's database, call by call, and what tells of it: what a client asked for and heard tells what has happened, so
/// the committed transactions, one after another over whole relations, give the answers that it heard and what the settled fragments
/// rebuild.
pub fn moves_follow(catalog: &Catalog)
    ensures { MovesFollow (database (catalogue_of catalog.now)) }
{
    one_client_is_a_run(catalog);
    served_is_serial(catalog);
}

/// A client's database whose letters all come smoothly: a transaction that begins where all is quiet is ready,
/// each statement of a ready one is answered, and the commit of a ready one is told, after which all is quiet.
pub fn served_smoothly(catalog: &Catalog)
    ensures { ServesSmoothly (database (catalogue_of catalog.now)) (fits (catalogue_of catalog.now)) }
{
    catalog.relations();
    leaf_names_are_unique();
    contents_ascend();
    language_is_lawful(catalog);
}

/// A client's database, whatever becomes of its letters: a statement of a ready transaction is answered, and its
/// commit told, after which all is quiet, unless something was refused on the way.
pub fn served_unless_refused(catalog: &Catalog)
    ensures { ServesUnlessRefused (database (catalogue_of catalog.now)) (fits (catalogue_of catalog.now)) }
{
    language_is_lawful(catalog);
    served_smoothly(catalog);
}

/// A client's database, whatever is refused on the way: a statement is answered and its transaction ready for more, or it
/// has ended, which is told, and all is quiet; after a commit or a rollback all is quiet.
pub fn grows_quiet(catalog: &Catalog)
    ensures { GrowsQuiet (database (catalogue_of catalog.now)) (fits (catalogue_of catalog.now)) }
{
    catalog.relations();
    leaf_names_are_unique();
    contents_ascend();
    language_is_lawful(catalog);
}

/// The calls of a client's database that stands, all quiet or its open transaction ready: a transaction begins; unless something is refused
/// on the way, a statement is answered, and a commit and a rollback are told, after which all is quiet.
pub fn obeyed_unless_refused(catalog: &Catalog)
    ensures { ObeysUnlessRefused (database (catalogue_of catalog.now)) (fits (catalogue_of catalog.now)) }
{
    one_client_is_a_run(catalog);
    served_smoothly(catalog);
    served_unless_refused(catalog);
}

/// Commands of a client's database that is served, by the calls that they make: what was heard is right, and one that stood, all quiet or
/// its open transaction ready, stands again, whatever was refused on the way. Unless something was, the command has done what it asks
/// for, or it is refused for a reason of its own, or for a limit.
pub fn commands_follow(catalog: &Catalog)
    ensures { CommandsFollow (database (catalogue_of catalog.now)) (fits (catalogue_of catalog.now)) }
{
    one_command();
    database_is_of_catalogue(catalog);
    one_client_is_a_run(catalog);
    obeyed_unless_refused(catalog);
    grows_quiet(catalog);
    moves_follow(catalog);
}

/// Over lists, whose media never refuse, no store call of one client is refused, and want of memory alone stops a database.
pub fn lists_stop_for_memory()
    ensures { (before after : MachinesNow PlainDesk PlainSite) → StopsForMemory before after }
{}

/// Machines that come up over what the stores of others kept go on from what those did: they are those of the same
/// run after restarts, in which whoever was undecided is aborted.
pub fn machines_come_up(catalog: &Catalog)
    ensures { ComingUpLaw (database (catalogue_of catalog.now)) }
{
    catalog.relations();
    one_client_is_a_run(catalog);
}

/// So over a list of catalogues, under the one whose number the coordinator's store keeps. Where nothing stands in memory a database begins anew,
/// and new stores are those of one without rows.
pub fn lists_come_up()
    ensures goes_on { (db : Database) → IsListed db → ListComingUpLaw db }
    ensures anew { (db : Database) → IsListed db → ListBeginsAnewLaw db }
    ensures without_rows { (first : Catalogue) (rest : List Catalogue) → IsListed (databases first rest) → ListNewStoresLaw first rest }
{}

/// A database that comes up again: each prepared row comes to its end, and then all is quiet.
pub fn restarts_recover(catalog: &Catalog)
    ensures { RecoveryLaw (language (database (catalogue_of catalog.now))) }
{
    language_is_lawful(catalog);
}

/// A client's database in whose memory nothing stands begins anew: it is an opening over the whole relations that its
/// committed transactions have made.
pub fn begins_anew(catalog: &Catalog)
    ensures { BeginsAnewLaw (database (catalogue_of catalog.now)) }
{
    one_client_is_a_run(catalog);
}

/// New stores are those of machines that were served over relations without rows, and of which nothing has happened.
pub fn new_stores_were_served(catalog: &Catalog)
    ensures { NewStoresLaw (catalogue_of catalog.now) }
{
    catalog.relations();
}
