//! The steps of a turn.

ghost use Rattle.std.specs.Prelude.{◌≡◌, ◌≢◌, ◌≤◌, ◌<◌, ◌^◌, [], IfOk, OnOk};
ghost use Rattle.clu_tree.specs.Typed.{IsTyped};
ghost use Rattle.machine_rules.specs.Typing.{FramesFit};
ghost use Rattle.machine_rules.specs.declared.act.Act.TheVariants as act;
ghost use Rattle.world_rules.specs.Plain.{join};
ghost use Rattle.node_core.specs.Acts.{IsNoted, RanTo, after_of, noted};

use crate::lines::line_of;
use crate::stepping::step;
use clu_eval::{Act, Process, StepEnd};
use clu_tree::Program;
use obj_region::Region;
use std::alloc::{AllocError, Global};
use world_types::{Effects, Line, Mark};

/// The number of the only process.
pub const PROCESS: u64 = 1;

/// What a process does behind a step.
#[derive(Clone, Copy)]
enum After {
    /// It may take another step.
    Ready,
    /// It sleeps until this time, in ms.
    Asleep(u64),
    Over,
}

/// What a turn leaves: the process, unless it is over, the time until which it sleeps, if it does, the steps taken, and
/// their effects.
#[derive(Drop)]
pub struct Ran {
    pub process: Option<Process>,
    pub asleep: Option<u64>,
    pub steps: u32,
    pub effects: Effects,
}

/// What a process does behind a sleep of so many ms at the time.
fn sleep_of(time: u64, ms: i64) -> After
    requires early { time < 2 ^ 62 }
    ensures { result ≡ after_of time (act.Sleep ms) }
{
    if ms <= 0 {
        return After::Ready;
    }
    After::Asleep(time + ms.unsigned_abs())
}

/// Adds what a step does at the node to the effects, and answers what the process does behind it.
fn note(
    alloc: Global,
    number: u32,
    time: u64,
    effects: &mut Effects,
    act: Act,
) -> Result<After, AllocError>
    requires noted { IsNoted act }
    requires early { time < 2 ^ 62 }
    ensures effects { OnOk result (effects.new ≡ join effects.old (noted number act)) }
    ensures after { IfOk result (λ after. after ≡ after_of time act) }
{
    match act {
        Act::Went => Ok(After::Ready),
        Act::Put(text) => {
            let text = line_of(alloc, number, text.as_slice())?;
            effects.lines.push(Line { node: number, text })?;
            Ok(After::Ready)
        }
        Act::Sleep(ms) => Ok(sleep_of(time, ms)),
        Act::Ended(_) => {
            effects.marks.push(Mark::Ended(PROCESS))?;
            Ok(After::Over)
        }
        _ => unreachable!(),
    }
}

/// Takes steps of a process that was picked at the node, at most so many, up to its sleep or its end.
pub fn run(
    alloc: Global,
    program: &Program,
    number: u32,
    time: u64,
    most: u32,
    mut process: Process,
) -> Result<Ran, AllocError>
    requires typed { IsTyped program.now }
    requires fits { FramesFit program.now process }
    requires goes_on { process ≢ [] }
    requires some { 1 ≤ most }
    requires early { time < 2 ^ 62 }
    ensures { IfOk result (λ ran. RanTo program.now number process time most ran) }
{
    let mut effects = Effects::nothing(alloc);
    let mut objects = Region::new(alloc)?;
    let mut steps = 0;
    while steps < most {
        let StepEnd { left: _, act } = step(alloc, program, time, &mut objects, &mut process)?;
        steps += 1;
        match note(alloc, number, time, &mut effects, act)? {
            After::Ready => {}
            After::Asleep(until) => {
                return Ok(Ran {
                    process: Some(process),
                    asleep: Some(until),
                    steps,
                    effects,
                });
            }
            After::Over => {
                return Ok(Ran {
                    process: None,
                    asleep: None,
                    steps,
                    effects,
                });
            }
        }
    }
    Ok(Ran {
        process: Some(process),
        asleep: None,
        steps,
        effects,
    })
}
