ghost use Rattle.std.specs.Prelude.{◌≡◌, ◌^◌, ◌<◌, IfOk};
ghost use Rattle.fault.specs.declared.refusal.Refusal.TheVariants.{UnknownWork};
ghost use Rattle.plant.specs.Model.{Model, Apart, leaves};
ghost use Rattle.plant.specs.Replies.{asked, admitted, replied, count_of, first_of, second_of};

use fault::{Fault, Refusal, WorkPlace};

// The input words of a work. (As a call's `Inputs`, but words: one type for both would let the number of a variable pass
// for a word.)
#[derive(Clone, Copy, PartialEq)]
pub enum Words {
    Nothing,
    Single(u32),
    Pair(u32, u32),
}

impl Words {
    // How many inputs there are.
    pub fn count(self) -> u32
        ensures { result ≡ count_of self }
    {
        match self {
            Words::Nothing => 0,
            Words::Single(_) => 1,
            Words::Pair(_, _) => 2,
        }
    }

    // The first word, or 0.
    pub fn first(self) -> u32
        ensures { result ≡ first_of self }
    {
        match self {
            Words::Nothing => 0,
            Words::Single(a) | Words::Pair(a, _) => a,
        }
    }

    // The second word, or 0.
    pub fn second(self) -> u32
        ensures { result ≡ second_of self }
    {
        match self {
            Words::Nothing | Words::Single(_) => 0,
            Words::Pair(_, b) => b,
        }
    }
}

// What the stations work on. Every kind of plant has a model; a value of the kind means a state of it, and the
// law of plants holds of the model.
pub trait Plant {
    ghost model: { Model };

    ghost meaning: { Self → model.State };

    ghost apart: { Apart model };

    // Whether the plant knows a work with so many inputs. Nothing is changed.
    fn knows(&self, station: u32, work: u32, count: u32) -> bool
        ensures { result ≡ model.known station work count };

    // Refuses a work that is not known.
    fn admit(&self, station: u32, work: u32, inputs: Words) -> Result<(), Fault<WorkPlace>>
        ensures { result ≡ admitted model (asked station work inputs) }
    {
        if self.knows(station, work, inputs.count()) {
            Ok(())
        } else {
            Err(unknown_work(station, work))
        }
    }

    // Does a work. One that is not known is refused, and the state stays as it was.
    fn perform(&mut self, station: u32, work: u32, inputs: Words) -> Result<u32, Fault<WorkPlace>>
        ensures answer { result ≡ replied model (meaning self.old) (asked station work inputs) }
        ensures word { IfOk result (λ v. v < 2 ^ 32) }
        ensures state { meaning self.new ≡ leaves model (meaning self.old) (asked station work inputs) };
}

// The refusal of a work that is not known.
fn unknown_work(station: u32, work: u32) -> Fault<WorkPlace>
    ensures { result ≡ record { refusal = UnknownWork; place = record { station = station; work = work } } }
{
    Fault {
        refusal: Refusal::UnknownWork,
        place: WorkPlace { station, work },
    }
}
