// A log in which threads enter numbers.
ghost use Rattle.std.specs.Prelude.{◌≡◌, ◌+◌, []};
ghost use Rattle.std.specs.Arc.{arc_value};

use std::alloc::Global;
use std::snapshot::Snapshot;
use std::sync::{Arc, Wait};
use std::test::Fail;
use std::thread::{self, Builder, Promise, Threads};
use turn_book::{Book, Kept, Pass};

#[derive(Drop)]
struct Log {
    entries: Vec<u64>,
}

impl Kept for Log {
    type Entry = u64;

    type Label = ();

    ghost history = { λ log. log.entries.items };

    ghost label = { λ _. tt };
}

impl Log {
    fn new(alloc: Global) -> Log
        ensures { result.entries.items ≡ [] }
    {
        Log {
            entries: Vec::new(alloc),
        }
    }

    // The entries of the thread are this many, in the order in which it made them.
    fn has_in_order(&self, thread: u64, entries: u64) -> bool {
        let made = self.entries.iter().filter(|entry| **entry / 1000 == thread);
        made.map(|entry| *entry % 1000).eq(0..entries)
    }
}

// Enters this many entries, one in each turn: 1000 times the thread, and so on.
fn enter_many<R: Wait>(
    rt: &R,
    book: &Book<Log>,
    mut pass: Pass<Log>,
    thread: u32,
    entries: u32,
) -> Pass<Log>
    requires { pass.book ≡ book.now }
    ensures { result ≡ record pass { seen = result.seen; mine = result.mine } }
{
    for k in 0..entries {
        let (mut log, busy) = book.take(rt, pass);
        let entered = log.entries.push(1000 * u64::from(thread) + u64::from(k));
        pass = if entered.is_ok() {
            book.enter_and_give(log, busy)
        } else {
            book.give(log, busy)
        };
    }
    pass
}

#[test]
fn one_entry_of_two_seats(rt: HostRuntime) -> Result<(), Fail> {
    let alloc = rt.alloc();
    let (book, pass) = Book::begin(alloc, Log::new(alloc), 2)?;
    let pass = enter_many(&rt, &book, pass, 7, 1);
    let log = book.close(pass);
    assert!(rt; log.entries.as_slice() == [7000].as_slice());
    Ok(())
}

#[test]
fn two_threads_enter_a_hundred_each(rt: HostRuntime) -> Result<(), Fail> {
    let alloc = rt.alloc();
    let (book, mut first) = Book::begin(alloc, Log::new(alloc), 2)?;
    let second = book.split(&mut first);
    let (first, second) = thread::join(
        &rt,
        || enter_many(&rt, &book, first, 0, 100),
        || enter_many(&rt, &book, second, 1, 100),
    );
    let pass = book.join(first, second);
    let log = book.close(pass);
    assert_eq!(rt; log.entries.len(), 200);
    assert!(rt; log.has_in_order(0, 100));
    assert!(rt; log.has_in_order(1, 100));
    Ok(())
}

// The thread gives the pass back, with what it has seen and made besides.
#[derive(Drop)]
struct Onward(Snapshot<Pass<Log>>);

impl Promise<Pass<Log>> for Onward {
    ghost kept_by = { λ p r. r ≡ record p.0.value { seen = r.seen; mine = r.mine } };
}

// Enters by both passes, one of them in a thread of a scope.
fn enter_beside<R: Threads + Wait + Sync>(
    rt: &R,
    book: &Book<Log>,
    first: Pass<Log>,
    second: Pass<Log>,
) -> Pass<Log>
    requires first { (first.book ≡ book.now) × (first.number ≡ 0) }
    requires second { second.book ≡ book.now }
    ensures { (result.book ≡ first.book)
        × (result.room ≡ first.room + 1)
        × (result.seats ≡ first.seats) }
{
    thread::scope(
        thread::scope_env(),
        rt,
        |scope| -> Pass<Log>
            requires { (first.book ≡ book.now) × (first.number ≡ 0) × (second.book ≡ book.now) }
            ensures { (result.book ≡ first.book)
                × (result.room ≡ first.room + 1)
                × (result.seats ≡ first.seats) }
        {
            let promise = Onward(Snapshot::of(&second));
            match scope.spawn_with(promise, move || enter_many(rt, book, second, 1, 50)) {
                Ok(child) => {
                    let first = enter_many(rt, book, first, 0, 50);
                    book.join(first, child.join(rt))
                }
                Err(refused) => book.join(first, (refused.value)()),
            }
        },
    )
}

#[test]
fn a_scoped_thread_gives_its_pass_back(rt: HostRuntime) -> Result<(), Fail> {
    let alloc = rt.alloc();
    let (book, mut first) = Book::begin(alloc, Log::new(alloc), 2)?;
    let second = book.split(&mut first);
    let pass = enter_beside(&rt, &book, first, second);
    let log = book.close(pass);
    assert!(rt; log.has_in_order(0, 50));
    assert!(rt; log.has_in_order(1, 50));
    Ok(())
}

// Enters by a thread that can't be started, since its stack is larger than any memory, and so by
// this thread.
fn enter_refused<R: Threads + Wait + Copy + Send + 'static>(
    rt: R,
    book: Arc<Book<Log>, Global>,
    pass: Pass<Log>,
) -> (Pass<Log>, bool)
    requires { pass.book ≡ arc_value book }
    ensures { result.0 ≡ record pass { seen = result.0.seen; mine = result.0.mine } }
{
    let promise = Onward(Snapshot::of(&pass));
    let start = Builder::new().stack_size(usize::MAX);
    let work = move || -> Pass<Log>
        requires { pass.book ≡ arc_value book }
        ensures { result ≡ record pass { seen = result.seen; mine = result.mine } }
    {
        let pass = pass;
        enter_many(&rt, &book, pass, 0, 3)
    };
    match start.spawn_with(&rt, promise, work) {
        Ok(child) => (child.join(&rt), false),
        Err(refused) => ((refused.value)(), true),
    }
}

#[test]
fn a_refused_start_hands_the_work_back(rt: HostRuntime) -> Result<(), Fail> {
    let alloc = rt.alloc();
    let (book, first) = Book::begin(alloc, Log::new(alloc), 1)?;
    let book = Arc::new(alloc, book)?;
    let (pass, refused) = enter_refused(rt, Arc::try_clone(&book)?, first);
    assert!(rt; refused);
    let (log, busy) = book.take(&rt, pass);
    let entered = log.has_in_order(0, 3);
    drop(book.give(log, busy));
    assert!(rt; entered);
    Ok(())
}
