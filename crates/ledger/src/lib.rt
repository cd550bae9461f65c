// What holds of what is held: theorems over every kind of values, each the contract of a function.
#![tactic(auto)]

ghost use Rattle.std.specs.Prelude.{ℕ};
ghost use Rattle.ledger.specs.Canon.{Canon};
ghost use Rattle.ledger.specs.Promise.{EveryRunKeeps};

use lawful::Value;

// A canonical list is the only one of its kind, the shortest, and as long as the size of what it holds.
pub fn canon<V: Value>()
    ensures { (count : ℕ) → Canon V.equals count }
{}

// Every list of calls, from the empty list on, keeps the promise.
pub fn every_run_keeps<V: Value>()
    ensures { EveryRunKeeps V.equals }
{}
