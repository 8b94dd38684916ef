//! The threads' law, of each lawful list of catalogues: as the contract of functions that change nothing.

ghost use Rattle.desk.specs.Database.{Database};
ghost use Rattle.world.specs.Listed.{IsListed};
ghost use Rattle.history.specs.Weaving.{WovenAreRuns, WovenAreSerial};

use world::laws::runs_are_serial;

/// Histories that replay, put together by their numbers with each letter put out before it was taken, are a run of the machines,
/// whichever catalogue came into force.
pub fn woven_are_runs()
    ensures { (db : Database) → IsListed db → WovenAreRuns db }
{}

/// So they are serial.
pub fn woven_are_serial()
    ensures { (db : Database) → IsListed db → WovenAreSerial db }
{
    woven_are_runs();
    runs_are_serial();
}
