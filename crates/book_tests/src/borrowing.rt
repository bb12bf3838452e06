// A kept value that borrows, and is generic.
ghost use denote.Param.Send.{IsSync};
ghost use Rattle.std.specs.Prelude.{◌≡◌, ◌++◌, ◌∷◌, [], true, false};

use std::collections::LinkedList;
use std::snapshot::Snapshot;
use std::sync::Wait;
use std::test::Fail;
use std::thread::{self, Promise, Scope, Threads};
use turn_book::{Book, Kept, Pass};

trait Ticks: Send + Drop {
    fn read(&mut self) -> u64;
}

// Each reading is one more than the last.
#[derive(Drop)]
struct Counter(u64);

impl Ticks for Counter {
    fn read(&mut self) -> u64 {
        self.0 = self.0.wrapping_add(1);
        self.0
    }
}

#[derive(Drop)]
struct Line {
    stamp: u64,
    text: Vec<u8>,
}

// The lines so far of a program, by a clock.
#[derive(Drop)]
struct Run<'a, C: Ticks> {
    program: &'a [u8],
    seed: u64,
    lines: Vec<Line>,
    clock: C,
}

// No value of it is made.
struct Name {
    program: LinkedList<u8>,
    seed: u64,
}

impl<'a, C: Ticks> Kept for Run<'a, C> {
    type Entry = Line;

    type Label = Name;

    ghost history = { λ run. run.lines.items };

    ghost label = { λ run. record { program = run.program.now; seed = run.seed } };
}

impl<'a, C: Ticks> Run<'a, C> {
    fn read(&mut self) -> u64
        ensures { self.new ≡ record self.old { clock = self.new.clock } }
    {
        self.clock.read()
    }

    // Adds the line, where there is memory.
    fn place(&mut self, line: Line) -> bool
        ensures program { self.new.program ≡ self.old.program }
        ensures seed { self.new.seed ≡ self.old.seed }
        ensures placed { result ≡ true → self.new.lines.items ≡ self.old.lines.items ++ line ∷ [] }
        ensures not { result ≡ false → self.new.lines.items ≡ self.old.lines.items }
    {
        self.lines.push(line).is_ok()
    }
}

fn place_in_turn<'a, C: Ticks, R: Wait>(
    rt: &R,
    book: &Book<Run<'a, C>>,
    pass: Pass<Run<'a, C>>,
    text: Vec<u8>,
) -> Pass<Run<'a, C>>
    requires { pass.book ≡ book.now }
    ensures { result ≡ record pass.entry { seen = result.seen; mine = result.mine } }
{
    let (mut run, busy) = book.take(rt, pass);
    let stamp = run.read();
    if run.place(Line { stamp, text }) {
        book.enter_and_give(run, busy)
    } else {
        book.give(run, busy)
    }
}

// What a thread is given, in one piece.
#[derive(Drop)]
struct Errand<'b, R, J: Kept<Entry = Line, Label = Name>> {
    rt: &'b R,
    book: &'b Book<J>,
    pass: Pass<J>,
    text: Vec<u8>,
}

fn run_errand<'b, 'a, R: Wait, C: Ticks>(errand: Errand<'b, R, Run<'a, C>>) -> Pass<Run<'a, C>>
    requires { errand.pass.book ≡ errand.book.now }
    ensures { result ≡ record errand.entry.pass { seen = result.seen; mine = result.mine } }
{
    let Errand {
        rt,
        book,
        pass,
        text,
    } = errand;
    place_in_turn(rt, book, pass, text)
}

// The pass that a thread gives back has what it has seen and made besides.
#[derive(Drop)]
struct Onward<J: Kept<Entry = Line, Label = Name>> {
    pass: Snapshot<Pass<J>>,
}

impl<J: Kept<Entry = Line, Label = Name>> Promise<Pass<J>> for Onward<J> {
    ghost kept_by = { λ p r. r ≡ record p.pass.value { seen = r.seen; mine = r.mine } };
}

fn run_both<'s, 'e, 'b: 's, 'a: 's, R: Threads + Wait + Sync, C: Ticks>(
    scope: &Scope<'s, &'e ()>,
    one: Errand<'b, R, Run<'a, C>>,
    other: Errand<'b, R, Run<'a, C>>,
) -> (Pass<Run<'a, C>>, Pass<Run<'a, C>>)
    requires one { one.pass.book ≡ one.book.now }
    requires other { other.pass.book ≡ other.book.now }
    ensures one { result.0 ≡ record one.entry.pass { seen = result.0.seen; mine = result.0.mine } }
    ensures other { result.1 ≡ record other.entry.pass { seen = result.1.seen; mine = result.1.mine } }
{
    let rt = one.rt;
    let promise = Onward {
        pass: Snapshot::of(&one.pass),
    };
    let started = scope.spawn_with(
        promise,
        move || -> Pass<Run<C>>
            requires { (one.pass.book ≡ one.book.now) × IsSync R.row }
            ensures { result ≡ record one.entry.pass { seen = result.seen; mine = result.mine } }
        { run_errand(one) },
    );
    let other = run_errand(other);
    match started {
        Ok(child) => (child.join(rt), other),
        Err(refused) => ((refused.value)(), other),
    }
}

// Runs both errands, one of them in a thread of a scope.
fn run_beside<'b, 'a, R: Threads + Wait + Sync, C: Ticks>(
    rt: &R,
    one: Errand<'b, R, Run<'a, C>>,
    other: Errand<'b, R, Run<'a, C>>,
) -> (Pass<Run<'a, C>>, Pass<Run<'a, C>>)
    requires one { one.pass.book ≡ one.book.now }
    requires other { other.pass.book ≡ other.book.now }
    ensures one { result.0 ≡ record one.entry.pass { seen = result.0.seen; mine = result.0.mine } }
    ensures other { result.1 ≡ record other.entry.pass { seen = result.1.seen; mine = result.1.mine } }
{
    thread::scope(
        thread::scope_env(),
        rt,
        |scope| -> (Pass<Run<C>>, Pass<Run<C>>)
            requires { (one.pass.book ≡ one.book.now)
                × (other.pass.book ≡ other.book.now)
                × IsSync R.row }
            ensures { (result.0 ≡ record one.entry.pass { seen = result.0.seen; mine = result.0.mine })
                × (result.1 ≡ record other.entry.pass { seen = result.1.seen; mine = result.1.mine }) }
        { run_both(scope, one, other) },
    )
}

#[test]
fn a_value_that_borrows_is_kept(rt: HostRuntime) -> Result<(), Fail> {
    let alloc = rt.alloc();
    let program = [1, 2, 3];
    let run = Run {
        program: &program,
        seed: 7,
        lines: Vec::new(alloc),
        clock: Counter(0),
    };
    let (book, mut first) = Book::begin(alloc, run, 2)?;
    let second = book.split(&mut first);
    let one = Errand {
        rt: &rt,
        book: &book,
        pass: first,
        text: vec![in alloc; 10]?,
    };
    let other = Errand {
        rt: &rt,
        book: &book,
        pass: second,
        text: vec![in alloc; 20]?,
    };
    let (first, second) = run_beside(&rt, one, other);
    let pass = book.join(first, second);
    let run = book.close(pass);
    assert!(rt; run.program == [1, 2, 3].as_slice() && run.seed == 7);
    assert_eq!(rt; run.lines.len(), 2);
    assert!(rt; run.lines[0].stamp == 1 && run.lines[1].stamp == 2);
    let (early, late) = (run.lines[0].text.as_slice(), run.lines[1].text.as_slice());
    let (ten, twenty) = ([10].as_slice(), [20].as_slice());
    assert!(rt; (early == ten && late == twenty) || (early == twenty && late == ten));
    Ok(())
}
