#![tactic(auto)]

// Runs the program files in the file `cases`: each is a program file, a byte for the plant (0 Reckoner, 1 Panel, 2 Script),
// a script, and requests. A line for each: the replies, joined by `|`; or the refusal of the file or of its making.
ghost use Rattle.std.specs.Prelude.{◌≤◌, length};
ghost use Rattle.std.specs.Iterator.{at_most};

use bench::Run;
use cases::next_part;
use fault::{Fault, TickPlace};
use mark_text::{MarkLine, WordText};
use netcode::Step;
use plant::{Panel, Plant, Reckoner, Script};
use semantics::{Reply, Request};
use std::fs;
use text::RefusedLine;

fn print_made(rt: &HostRuntime, count: u32, ended: Option<Fault<TickPlace>>) -> anyhow::Result<()> {
    rt.print("made ")?;
    rt.print(count)?;
    if let Some(fault) = ended {
        rt.print(" ")?;
        rt.print(RefusedLine(fault.carried()))?;
    }
    Ok(())
}

fn print_reply(rt: &HostRuntime, request: Request, reply: Reply) -> anyhow::Result<()> {
    match reply {
        Reply::Granted => rt.print("granted")?,
        Reply::Refused(fault) => rt.print(RefusedLine(fault.carried()))?,
        Reply::Made { count, ended } => print_made(rt, count, ended)?,
        Reply::Word(word) => rt.print(WordText(word))?,
        Reply::Mark(mark) => {
            let row = match request {
                Request::MarkAt { row } => row as usize,
                _ => 0,
            };
            rt.print(MarkLine { row, mark })?
        }
        Reply::Outside(fault) => rt.print(RefusedLine(fault.carried()))?,
    }
    Ok(())
}

// The number that four bytes tell, the low one first, and what follows them; 0 and nothing where there are fewer.
fn number(bytes: &[u8]) -> (u32, &[u8])
    ensures { length result.1.now ≤ length bytes.now }
{
    match bytes {
        [a, b, c, d, rest @ ..] => (u32::from_le_bytes([*a, *b, *c, *d]), rest),
        _ => (0, &[]),
    }
}

// The requests of a case, one after the other.
#[derive(Drop)]
struct Requests<'a>(&'a [u8]);

impl Iterator for Requests<'_> {
    type Item = Request;

    ghost remaining = { λ s. at_most (length s.0.now) };

    fn next(&mut self) -> Option<Request> {
        let (kind, rest) = self.0.split_first()?;
        let (first, after) = number(rest);
        let (request, rest) = match *kind {
            0 => (Request::Tick, rest),
            1 => (Request::Rehearse(first), after),
            2 => {
                let station = first;
                let (variable, after) = number(after);
                (Request::WordAt { station, variable }, after)
            }
            _ => (Request::MarkAt { row: first }, after),
        };
        self.0 = rest;
        Some(request)
    }
}

// What a run is made above.
#[derive(Clone, Copy)]
enum PlantKind {
    Reckoner,
    Panel,
    Script,
}

impl From<u8> for PlantKind {
    fn from(byte: u8) -> PlantKind {
        match byte {
            0 => PlantKind::Reckoner,
            1 => PlantKind::Panel,
            _ => PlantKind::Script,
        }
    }
}

#[derive(Clone, Copy)]
struct Case<'a> {
    file: &'a [u8],
    plant: PlantKind,
    script: &'a [u8],
    requests: &'a [u8],
}

// The cases, one after the other, up to one that is cut short.
#[derive(Drop)]
struct Cases<'a>(&'a [u8]);

impl<'a> Iterator for Cases<'a> {
    type Item = Case<'a>;

    ghost remaining = { λ s. at_most (length s.0.now) };

    fn next(&mut self) -> Option<Case<'a>> {
        let (file, rest) = next_part(self.0)?;
        let (plant, rest) = rest.split_first()?;
        let (script, rest) = next_part(rest)?;
        let (requests, rest) = next_part(rest)?;
        self.0 = rest;
        Some(Case {
            file,
            plant: PlantKind::from(*plant),
            script,
            requests,
        })
    }
}

fn serve_case<P: Plant>(
    rt: &HostRuntime,
    mut run: Run,
    plant: &mut P,
    requests: &[u8],
) -> anyhow::Result<()> {
    for (i, request) in Requests(requests).enumerate() {
        if i > 0 {
            rt.print("|")?;
        }
        let reply = run.serve(plant, request);
        print_reply(rt, request, reply)?;
    }
    rt.println("")?;
    Ok(())
}

fn with_plant(rt: &HostRuntime, run: Run, case: Case) -> anyhow::Result<()> {
    match case.plant {
        PlantKind::Reckoner => serve_case(rt, run, &mut Reckoner, case.requests),
        PlantKind::Panel => serve_case(rt, run, &mut Panel::new(), case.requests),
        PlantKind::Script => match Script::read(case.script) {
            Ok(mut words) => serve_case(rt, run, &mut words, case.requests),
            Err(fault) => Ok(rt.println(RefusedLine(fault.carried()))?),
        },
    }
}

fn run_case(rt: &HostRuntime, case: Case) -> anyhow::Result<()> {
    let mut steps = vec![in rt.alloc(); Step::Halt; 32768]?;
    let layout = match programs::read(case.file, steps.as_mut_slice()) {
        Ok(layout) => layout,
        Err(fault) => return Ok(rt.println(RefusedLine(fault.carried()))?),
    };
    match Run::make(layout, steps) {
        Ok(run) => with_plant(rt, run, case),
        Err((_, _, fault)) => Ok(rt.println(RefusedLine(fault.carried()))?),
    }
}

fn run(rt: &HostRuntime) -> anyhow::Result<()> {
    let cases = fs::read(rt, "cases")?;
    for case in Cases(cases.as_slice()) {
        run_case(rt, case)?;
    }
    Ok(())
}

fn main(rt: HostRuntime) -> anyhow::Result<()> {
    run(&rt)
}
