//! The clock of logical time.

ghost use Rattle.std.specs.Prelude.{◌≤◌};

use logical_clock::LogicalClock;

// What the clock reads at three stamps, none of which is below the last that it was told.
fn reads(clock: &LogicalClock, early: u64, middle: u64, late: u64) -> [u64; 3]
    requires early { clock.now.last ≤ early }
    requires middle { clock.now.last ≤ middle }
    requires late { clock.now.last ≤ late }
{
    [clock.read(early), clock.read(middle), clock.read(late)]
}

/// Rounds (100, 400), (600, 600) and (600, 700): what the clock reads after each telling.
#[test]
fn reads_real_time_less_halted_time(rt: HostRuntime) {
    let mut clock = LogicalClock::new();
    assert_eq!(rt; reads(&clock, 0, 50, 100), [0, 50, 100], "before all");

    clock.tell_open(100);
    assert_eq!(rt;
        reads(&clock, 100, 250, 399),
        [100, 100, 100],
        "in the first round"
    );

    clock.tell_close(400);
    assert_eq!(rt;
        reads(&clock, 400, 500, 600),
        [100, 200, 300],
        "after the first round"
    );

    clock.tell_open(600);
    clock.tell_close(600);
    assert_eq!(rt; clock.read(600), 300);

    clock.tell_open(600);
    assert_eq!(rt; clock.read(650), 300);

    clock.tell_close(700);
    assert_eq!(rt;
        reads(&clock, 700, 800, u64::MAX),
        [300, 400, 18_446_744_073_709_551_215],
        "after all"
    );
}
