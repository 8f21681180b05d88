// Examples of the module at work, and of a recording, proved about the definitions that the contracts use.
#![tactic(auto)]

ghost use Rattle.worked_examples.specs.Examples.{Examples};
ghost use Rattle.worked_examples.specs.AfterCommands.{AfterCommands};
ghost use Rattle.worked_examples.specs.Further.{FurtherExamples};
ghost use Rattle.worked_examples.specs.StoreCalls.{StaysWithin};

use cache::Buffer;
use store::Store;

// The examples hold: each is computed.
pub fn examples_hold()
    ensures { Examples }
{}

// Further ones do: what stands in the premises of laws, what is counted, and what no reply shows.
pub fn further_examples_hold()
    ensures { FurtherExamples }
{}

// What the limits of each COMMAND come to: what then stands on the medium, and what is shown.
pub fn limits_say_what_stands()
    ensures { AfterCommands }
{}

// A cache of any kind over any store holds only blocks below the count, whatever is called on it.
pub fn caches_stay_within<S: Store, B: Buffer<S>>()
    ensures { StaysWithin B.kind S.Store.steps S.Store.meaning S.Store.good }
{}
