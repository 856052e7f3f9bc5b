ghost use Rattle.std.specs.Prelude.{◌≡◌, ◌≤◌, length, Ok};
ghost use Rattle.semantics.specs.Requests.{rehearsed, served};
ghost use Rattle.bench.specs.Runs.{programs_in, world_in, SamePrograms};
ghost use Rattle.bench.specs.Replies.{ticks_made, replied, answered, served_into};

use crate::run::Run;
use fault::{BytesPlace, Fault, TickPlace};
use plant::Plant;
use semantics::{Reply, Request};
use sheet::too_short;

// How many ticks a rehearsal made, and the refusal that ended it. (`Reply::Made` spells out the same two: with this type
// inside, each definition that tells replies apart would unpack it first.)
#[derive(Clone, Copy)]
pub struct Rehearsal {
    pub count: u32,
    pub ended: Option<Fault<TickPlace>>,
}

impl Run {
    // A rehearsal of up to n ticks. A refusal ends it.
    pub fn rehearse<P: Plant>(&mut self, plant: &mut P, n: u32) -> Rehearsal
        ensures rehearsal { ticks_made result.count result.ended (world_in self.new (P.meaning plant.new)) ≡ rehearsed P.model (programs_in self.old) n (world_in self.old (P.meaning plant.old)) }
        ensures programs { SamePrograms self.old self.new }
    {
        // The number of ticks made is the answer: no list stands behind it.
        for count in 0..n {
            if let Err(fault) = self.tick(plant) {
                let ended = Some(fault);
                return Rehearsal { count, ended };
            }
        }
        Rehearsal {
            count: n,
            ended: None,
        }
    }

    // One request.
    pub fn serve<P: Plant>(&mut self, plant: &mut P, request: Request) -> Reply
        ensures served { replied result (world_in self.new (P.meaning plant.new)) ≡ served P.model (programs_in self.old) request (world_in self.old (P.meaning plant.old)) }
        ensures programs { SamePrograms self.old self.new }
    {
        match request {
            Request::Tick => match self.tick(plant) {
                Ok(()) => Reply::Granted,
                Err(fault) => Reply::Refused(fault),
            },
            Request::Rehearse(n) => {
                let Rehearsal { count, ended } = self.rehearse(plant, n);
                Reply::Made { count, ended }
            }
            Request::WordAt { station, variable } => match self.word_at(station, variable) {
                Ok(word) => Reply::Word(word),
                Err(fault) => Reply::Outside(fault),
            },
            Request::MarkAt { row } => match self.mark_at(row) {
                Ok(mark) => Reply::Mark(mark),
                Err(fault) => Reply::Outside(fault),
            },
        }
    }

    // A list of requests, in order, with their replies at the front of the list handed in. One that is too short is
    // refused 4 with the count needed, and nothing moves.
    pub fn serve_all<P: Plant>(
        &mut self,
        plant: &mut P,
        requests: &[Request],
        replies: &mut [Reply],
    ) -> Result<(), Fault<BytesPlace>>
        ensures served { answered result replies.new (world_in self.new (P.meaning plant.new)) ≡ served_into P.model (programs_in self.old) requests.now replies.old (world_in self.old (P.meaning plant.old)) }
        ensures programs { SamePrograms self.old self.new }
    {
        if replies.len() < requests.len() {
            return Err(too_short(requests.len() as u64));
        }
        // By index: after `replies.iter_mut().zip(requests)` a proof knows the length of the list and none of its replies.
        for (i, request) in requests.iter().enumerate() {
            replies[i] = self.serve(plant, *request);
        }
        Ok(())
    }
}
