ghost use Rattle.std.specs.Prelude.{◌≡◌};
ghost use Rattle.lossy_net.specs.Fate.{fate_of};

/// How many copies of a packet arrive, by the word that it draws: none where the word's last three decimal digits are
/// below `loss`, else two where the three before them are below `repeat`, else one.
pub fn fate(word: u32, loss: u32, repeat: u32) -> u8
    ensures { result ≡ fate_of word loss repeat }
{
    if word % 1000 < loss {
        0
    } else if word / 1000 % 1000 < repeat {
        2
    } else {
        1
    }
}
