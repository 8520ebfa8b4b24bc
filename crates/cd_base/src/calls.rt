//! The calls of an end in memory, of which chosen ones fail.
ghost use Rattle.std.specs.Prelude.{◌≡◌, ◌≤◌};
ghost use Rattle.cd_base.specs.MemoryEnds.{fails_next, with_call};

/// How often an end in memory was called, how often it failed, and at which calls it fails, by their numbers from 1.
#[derive(Drop)]
pub struct Calls {
    fails: Vec<u64>,
    count: u64,
    faults: u64,
}

impl Calls {
    // No call so far.
    pub(crate) fn new(fails: Vec<u64>) -> Calls
        ensures { result ≡ record { fails = fails; count = 0; faults = 0 } }
    {
        Calls {
            fails,
            count: 0,
            faults: 0,
        }
    }

    // Counts a call, and says whether it fails.
    pub(crate) fn next(&mut self) -> bool
        ensures fails { result ≡ fails_next self.old }
        ensures counted { self.new ≡ with_call self.old }
        ensures count { self.old.faults ≤ self.new.faults }
    {
        self.count = self.count.saturating_add(1);
        let fails = self.fails.contains(&self.count);
        if fails {
            self.faults = self.faults.saturating_add(1);
        }
        fails
    }
}
