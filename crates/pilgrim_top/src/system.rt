//! The top call over the system: the words of the command line, its files and its standard output.

ghost use Rattle.std.specs.Prelude.{◌≡◌, ℕ, List, Result, None};
ghost use Rattle.world_types.specs.declared.effects.Entry.{Entry};
ghost use Rattle.pilgrim_top.specs.Ends.{status_of};
ghost use Rattle.pilgrim_top.specs.Top.{WordsDo};
ghost use Rattle.pilgrim_top.specs.Usage.{texts_of};
ghost use Rattle.pilgrim_top.specs.declared.stop.Stop.{Stop};

use crate::top::top_words;
use outside_edge::{FileShelf, StdSink};
use std::alloc::Global;
use std::rt::{Env, Files};
use std::{env, io};

/// The words of the command line, without the program's own name. Those that aren't text are none.
fn words_of<R: Env + AllocGlobal>(rt: &R) -> io::Result<Vec<String>> {
    let mut words = Vec::new(rt.alloc());
    match env::args(rt) {
        Ok(args) => {
            for word in args.skip(1) {
                words.push(word)?;
            }
        }
        Err(error) if error.kind() == io::ErrorKind::OutOfMemory => return Err(error),
        Err(_) => {}
    }
    Ok(words)
}

/// Does what words ask, with the files of the system and the standard output, and answers the status.
fn status_with<R: Files + Print>(rt: &R, alloc: Global, words: &[String]) -> u8
    ensures { (journal : List Entry) × (end : Result ℕ Stop) × (result ≡ status_of end) ×
        WordsDo (texts_of words.now) None None None None journal end }
{
    let mut shelf = FileShelf::new(rt);
    let mut sink = StdSink::new(rt);
    top_words(alloc, words, &mut shelf, &mut sink).status
}

/// Does what the command line asks, with the files of the system and the standard output, and answers the status: what
/// `main` does.
pub fn status_of_command<R: Env + Files + Print + AllocGlobal>(rt: &R) -> u8
    ensures { (words : List (List ℕ)) × (journal : List Entry) × (end : Result ℕ Stop) × (result ≡ status_of end) ×
        WordsDo words None None None None journal end }
{
    match words_of(rt) {
        Ok(words) => status_with(rt, rt.alloc(), words.as_slice()),
        Err(_) => 5,
    }
}
