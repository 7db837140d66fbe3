// A script played on a docket.
use crate::script::{Call, Script};
use docket::{Docket, StoredStep, Verdict};
use game::record::{Entry, Mark, Origin};
use ground::{Clauses, Cubes, Ground};
use qdimacs::{Formula, Sealed};
use refusal::Refusal;
use std::alloc::{AllocError, Global};
use std::io;
use std::time::Instant;

const NO_STEP: StoredStep = StoredStep {
    origin: Origin::Leaf,
    end: 0,
};

const NO_MARK: Entry = Entry {
    variable: 0,
    mark: Mark::Plus,
};

fn answer<G: Ground>(
    docket: &mut Docket<'_>,
    formula: &Sealed<'_>,
    own_ground: &G,
    call: &Call,
) -> Result<u32, Refusal> {
    match call {
        Call::Leaf(literals) => docket.leaf(formula, own_ground, literals.as_slice()),
        Call::Resolve {
            pivot,
            first,
            second,
        } => docket.resolve(formula, own_ground, *pivot, *first, *second),
        Call::Reduce { parent } => docket.reduce(formula, own_ground, *parent),
        Call::Close => docket.close(formula, own_ground).map(Verdict::step),
    }
}

fn told(heap: Global, answer: Result<u32, Refusal>) -> Result<String, AllocError> {
    match answer {
        Ok(number) => number.to_string(heap),
        Err(refusal) => refusal.to_string(heap),
    }
}

// The memory of a docket.
#[derive(Drop)]
struct Memory {
    steps: Vec<StoredStep>,
    marks: Vec<Entry>,
}

impl Memory {
    fn new(heap: Global, script: &Script<'_>) -> Result<Memory, AllocError> {
        Ok(Memory {
            steps: vec![in heap; NO_STEP; script.step_room]?,
            marks: vec![in heap; NO_MARK; script.mark_room]?,
        })
    }

    fn docket(&mut self, variables: usize) -> Docket<'_> {
        Docket::open(
            variables,
            self.steps.as_mut_slice(),
            self.marks.as_mut_slice(),
        )
    }
}

// Makes the calls one after another, and prints the first answer that is not the expected one, or that there is none.
fn compare<G: Ground>(
    rt: &HostRuntime,
    script: &Script<'_>,
    formula: &Sealed<'_>,
    own_ground: &G,
) -> io::Result<()> {
    let name = script.name;
    let mut memory = Memory::new(rt.alloc(), script)?;
    let mut docket = memory.docket(script.variables);
    for line in script.lines.iter() {
        let got = told(
            rt.alloc(),
            answer(&mut docket, formula, own_ground, &line.call),
        )?;
        if got.as_str() != line.expected {
            let expected = line.expected;
            return println!(rt; "{name}: expected {expected}, got {got}");
        }
    }
    println!(rt; "{name}: as expected")
}

// Makes the calls so often, each time on a new docket, and prints how long that took.
fn time<G: Ground>(
    rt: &HostRuntime,
    script: &Script<'_>,
    formula: &Sealed<'_>,
    own_ground: &G,
    rounds: u32,
) -> io::Result<()> {
    let name = script.name;
    let mut memory = Memory::new(rt.alloc(), script)?;
    let start = Instant::now(rt)?;
    for _ in 0..rounds {
        let mut docket = memory.docket(script.variables);
        for line in script.lines.iter() {
            let _ = answer(&mut docket, formula, own_ground, &line.call);
        }
    }
    let spent = start.elapsed(rt)?;
    println!(rt; "{name}: {rounds} rounds in {spent:?}")
}

fn play<G: Ground>(
    rt: &HostRuntime,
    script: &Script<'_>,
    formula: &Sealed<'_>,
    own_ground: &G,
    rounds: u32,
) -> io::Result<()> {
    compare(rt, script, formula, own_ground)?;
    if rounds > 0 {
        time(rt, script, formula, own_ground, rounds)?;
    }
    Ok(())
}

// Reads the script's formula, and plays the script over the ground of its letter, for its answers and then for its time.
pub(crate) fn run(rt: &HostRuntime, script: &Script<'_>, rounds: u32) -> io::Result<()> {
    let name = script.name;
    let mut formula = Formula::new();
    if let Err(refusal) = formula.read(script.formula.as_bytes()) {
        return println!(rt; "{name}: {refusal}");
    }
    let Some(sealed) = formula.sealed() else {
        unreachable!()
    };
    if script.letter == "a" {
        play(rt, script, &sealed, &Clauses { formula: sealed }, rounds)
    } else {
        play(rt, script, &sealed, &Cubes { formula: sealed }, rounds)
    }
}
