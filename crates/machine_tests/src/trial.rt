//! A process that is stepped, given values and exceptions, and told of.
ghost use Rattle.std.specs.Prelude.{◌≡◌, ◌-◌, [], Some, IsSome};
ghost use Rattle.machine_tests.specs.Examples as of;
ghost use Rattle.clu_eval.specs.Steps.{world_at};
ghost use Rattle.machine_rules.specs.Runs.{vars_after};
ghost use Rattle.machine_rules.specs.World.{World};
ghost use Rattle.obj_region.specs.Answers.{region_seen};

use clu_eval::{Act, Memory, Process, RemoteAsk, StepEnd};
use clu_tree::{Program, Sig, Text, Value};
use obj_region::Region;
use std::alloc::Global;
use std::process::Abort;

/// A process with all that its steps change, and what was told of them.
#[derive(Drop)]
pub struct Trial {
    program: Program,
    process: Process,
    store: Region,
    vars: Vec<Option<Value>>,
    told: String,
}

impl Trial {
    /// The first routine of the program, on a node with these variables.
    pub fn new(rt: &(impl Abort + AllocGlobal), program: Program, vars: Vec<Option<Value>>) -> Trial
        requires { IsSome (of.begins program vars.items) }
        ensures { of.begins program vars.items
            ≡ Some (of.standing result.program result.process result.store result.vars.items) }
    {
        let process = Process::new(rt.alloc(), &program, 0, Vec::new(rt.alloc())).expect(
            rt, "memory",
        );
        Trial {
            program,
            process,
            store: Region::new(rt.alloc()).expect(rt, "memory"),
            vars,
            told: String::new(rt.alloc()),
        }
    }

    /// Takes the steps from `first` up to the one before `last`, and tells them.
    pub fn go(&mut self, rt: &(impl Abort + AllocGlobal), first: u32, last: u32)
        requires { IsSome
            (of.stepped (last - first)
            (of.standing self.old.program self.old.process self.old.store self.old.vars.items)) }
        ensures { of.stepped (last - first)
            (of.standing self.old.program self.old.process self.old.store self.old.vars.items)
            ≡ Some (of.standing self.new.program self.new.process self.new.store self.new.vars.items) }
    {
        for step in first..last {
            let end = self
                .process
                .step(
                    rt.alloc(),
                    &self.program,
                    &mut self.store,
                    self.vars.as_slice(),
                    0,
                )
                .expect(rt, "memory");
            tell(rt.alloc(), step + 1, &end, &mut self.told).expect(rt, "memory");
            set_var(end.act, &mut self.vars);
        }
    }

    /// Gives it a value.
    pub fn give(&mut self, rt: &impl Abort, value: Value)
        requires { IsSome
            (of.given value (of.standing self.old.program self.old.process self.old.store self.old.vars.items)) }
        ensures { of.given value (of.standing self.old.program self.old.process self.old.store self.old.vars.items)
            ≡ Some (of.standing self.new.program self.new.process self.new.store self.new.vars.items) }
    {
        self.process.give(value).expect(rt, "memory");
    }

    /// Raises an exception in it behind this step, and tells what that gave. `w` is the world in which it stands.
    pub fn raise(&mut self, rt: &(impl Abort + AllocGlobal), step: u32, sig: Sig)
        ghost w: { World }
        requires world { w ≡ world_at self.old.program (region_seen self.old.store) self.old.vars.items 0 }
        requires row { IsSome
            (of.raised sig (of.standing self.old.program self.old.process self.old.store self.old.vars.items)) }
        ensures { of.raised sig (of.standing self.old.program self.old.process self.old.store self.old.vars.items)
            ≡ Some (of.standing self.new.program self.new.process self.new.store self.new.vars.items) }
    {
        let end = self
            .process
            .raise(rt.alloc(), &self.program, sig)
            .expect(rt, "memory");
        tell(rt.alloc(), step, &end, &mut self.told).expect(rt, "memory");
        set_var(end.act, &mut self.vars);
    }

    /// What was told, and whether it is over.
    pub fn told(self, rt: &impl Abort) -> String {
        let Trial {
            process,
            mut told,
            ..
        } = self;
        if process.is_over() {
            told.push_str("over").expect(rt, "memory");
        }
        told
    }
}

/// The node's variables after an act.
fn set_var(act: Act, vars: &mut Vec<Option<Value>>)
    ensures { vars.new.items ≡ vars_after act vars.old.items }
{
    if let Act::SetVar(place, value) = act {
        if let Some(var) = vars.get_mut(place as usize) {
            *var = Some(value);
        }
    }
}

// ---- what is told

/// Adds what a step told, with its number: the locks that it gave back, and its act, if the process didn't just go on.
fn tell(alloc: Global, step: u32, end: &StepEnd, told: &mut String) -> Result<(), Memory> {
    for at in end.left.as_slice() {
        write!(told, "{step} left {}; ", at.0)?;
    }
    if !matches!(&end.act, Act::Went) {
        let act = act_told(alloc, &end.act)?;
        write!(told, "{step} {act}; ")?;
    }
    Ok(())
}

/// What an act tells, which is the line itself where one is printed.
fn act_told(alloc: Global, act: &Act) -> Result<String, Memory> {
    match act {
        Act::Put(line) => shown_text(alloc, line),
        Act::Sleep(ms) => format!(in alloc; "sleep {ms}"),
        Act::Enter(at) => format!(in alloc; "enter {}", at.0),
        Act::MakeSync(at, count) => format!(in alloc; "sync {} {count}", at.0),
        Act::Signal(at) => format!(in alloc; "signal {}", at.0),
        Act::Wait(at, None) => format!(in alloc; "wait {}", at.0),
        Act::Wait(at, Some(ms)) => format!(in alloc; "wait {} for {ms}", at.0),
        Act::SetVar(place, Value::Int(n)) => format!(in alloc; "set {place} to {n}"),
        Act::Fork(place, args) => {
            let args = args_told(alloc, args.as_slice())?;
            format!(in alloc; "fork {place} with {args}")
        }
        Act::Once(ask) => ask_told(alloc, ask),
        Act::Maybe(ask, ms) => {
            let ask = ask_told(alloc, ask)?;
            format!(in alloc; "{ask} within {ms}")
        }
        Act::Ended(Value::Nil) => format!(in alloc; "ended"),
        Act::Died(sig) => sig_told(alloc, sig),
        _ => format!(in alloc; "?"),
    }
}

/// A remote call.
fn ask_told(alloc: Global, ask: &RemoteAsk) -> Result<String, Memory> {
    let args = args_told(alloc, ask.args.as_slice())?;
    format!(in alloc; "ask {} at {} for {args}", ask.routine, ask.to)
}

/// Numbers, each with a comma behind it.
fn args_told(alloc: Global, args: &[Value]) -> Result<String, Memory> {
    let mut told = String::new(alloc);
    for arg in args {
        match arg {
            Value::Int(n) => write!(told, "{n},")?,
            _ => told.push_str("?,")?,
        }
    }
    Ok(told)
}

/// An exception, with its text if it carries one.
fn sig_told(alloc: Global, sig: &Sig) -> Result<String, Memory> {
    let name = shown_text(alloc, &sig.name)?;
    match &sig.value {
        Some(Value::Str(text)) => {
            let text = shown_text(alloc, text)?;
            format!(in alloc; "{name} ({text})")
        }
        _ => Ok(name),
    }
}

/// A text as a string.
fn shown_text(alloc: Global, text: &Text) -> Result<String, Memory> {
    String::from_utf8_lossy(alloc, text.as_slice())
}
