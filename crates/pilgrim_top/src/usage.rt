ghost use Rattle.std.specs.Prelude.{◌≡◌, ◌≢◌, ◌↔◌, IfOk, IsErrOf, IsTrue};
ghost use Rattle.pilgrim_top.specs.Usage.{IsName, IsUsage, texts_of};
ghost use Rattle.pilgrim_top.specs.declared.usage.Usage.{Usage};

use std::alloc::Global;
use thiserror::Error;

/// What the words of a command line ask for.
#[derive(Debug, Drop)]
pub enum Usage {
    /// Whether a program is accepted.
    Check(String),
    /// A program, and a script of events that it goes through.
    Replay(String, String),
    /// The script without the debugger.
    Erase(String, String),
    /// A measured run of so many calls.
    Load(u32),
    /// A run in threads, with a console.
    Run(RunWords),
}

/// The words of `run`.
#[derive(Debug, Drop)]
pub struct RunWords {
    pub file: String,
    pub seed: u64,
    /// How many of 1,000 packets are lost.
    pub loss: u32,
    /// How many of 1,000 packets that aren't lost come twice.
    pub repeat: u32,
    /// How many entries the journal may have.
    pub entries: u32,
    /// Whether the journal is written at the end.
    pub journal: bool,
}

#[derive(Debug, Drop, Error)]
pub enum UsageFault {
    #[error("usage: check, replay, erase, load or run")]
    Usage,
    #[error("out of memory")]
    Memory,
}

/// Reads the words of a command line, without the program's own name. `Usage` comes exactly where they are outside the
/// grammar, which is `replay FILE SCRIPT` so far; no name of a file begins with `-`.
pub fn usage_of(alloc: Global, words: &[String]) -> Result<Usage, UsageFault>
    ensures ok { IfOk result (λ usage. IsUsage usage (texts_of words.now)) }
    ensures usage { IsErrOf result UsageFault.Usage → (usage : Usage) → IsUsage usage (texts_of words.now) → ⊥ }
{
    match words {
        [first, file, script] => {
            if first.as_str() != "replay" || !is_name(file) || !is_name(script) {
                return Err(UsageFault::Usage);
            }
            let Ok(file) = file.clone() else {
                return Err(UsageFault::Memory);
            };
            let Ok(script) = script.clone() else {
                return Err(UsageFault::Memory);
            };
            Ok(Usage::Replay(file, script))
        }
        _ => Err(UsageFault::Usage),
    }
}

// Whether a word may name a file.
fn is_name(word: &String) -> bool
    ensures { IsTrue result ↔ IsName (Rattle.std.specs.Prelude.string_bytes word.now) }
{
    word.as_bytes().first() != Some(&b'-')
}
