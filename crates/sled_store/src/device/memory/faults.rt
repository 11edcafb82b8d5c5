//! The failures of a device in memory: how many there were, the call that is to fail, and the one that is
//! to be stopped within.
ghost use Rattle.std.specs.Prelude.{◌≡◌, ◌≢◌, ◌↔◌, ◌+◌, ◌-◌, ◌%◌, ◌^◌, ◌||◌, ◌==◌, IsTrue, IfErr, OnOk, OnErr, true, false, None};
ghost use Rattle.std.specs.IoError.{error_kind};
ghost use Rattle.std.specs.declared.io.ErrorKind.TheVariants.{Other};
ghost use Rattle.sled_store.specs.Answers.{Counts};
ghost use Rattle.sled_store.specs.inside.Stops.{one_fewer};

use std::io;

// The count, and what is to come.
#[derive(Drop)]
pub(crate) struct Faults {
    pub(crate) count: u64,
    // Which call fails, counted from the next one on; 0 for none.
    pub(crate) fails_in: u64,
    // How many calls that change or sync are done before one is stopped within.
    pub(crate) stops_after: Option<u64>,
    // One was, and all calls fail from then on.
    pub(crate) is_stopped: bool,
}

impl Faults {
    pub(crate) fn new() -> Faults
        ensures count { result.count ≡ 0 }
        ensures fails_in { result.fails_in ≡ 0 }
        ensures stops_after { result.stops_after ≡ None }
        ensures stopped { result.is_stopped ≡ false }
    {
        Faults {
            count: 0,
            fails_in: 0,
            stops_after: None,
            is_stopped: false,
        }
    }

    // A call came: whether it is the one that fails.
    pub(crate) fn is_due(&mut self) -> bool
        ensures due { IsTrue result ↔ (self.old.fails_in ≡ 1) }
        ensures rest { self.new ≡ record self.old { fails_in = self.old.fails_in - 1 } }
    {
        if self.fails_in == 0 {
            return false;
        }
        self.fails_in -= 1;
        self.fails_in == 0
    }

    // Counts a failure.
    pub(crate) fn fail(&mut self) -> io::Error
        ensures rest { self.new ≡ record self.old { count = (self.old.count + 1) % 2 ^ 64 } }
        ensures kind { error_kind result ≡ Other }
    {
        self.count = self.count.wrapping_add(1);
        io::Error::other("the device failed")
    }

    // A call came: it goes on, unless it is the one that fails or all do.
    pub(crate) fn begin(&mut self) -> io::Result<()>
        ensures goes_on { OnOk result ((self.old.is_stopped || self.old.fails_in == 1) ≡ false) }
        ensures fails { OnErr result ((self.old.is_stopped || self.old.fails_in == 1) ≡ true) }
        ensures kind { IfErr result (λ e. error_kind e ≡ Other) }
        ensures count { Counts result self.old.count self.new.count }
        ensures rest { self.new ≡ record self.old { count = self.new.count; fails_in = self.old.fails_in - 1 } }
    {
        let is_due = self.is_due();
        if self.is_stopped || is_due {
            return Err(self.fail());
        }
        Ok(())
    }

    // No call is to fail any more, or to be stopped within.
    pub(crate) fn unwritten(&mut self)
        ensures count { self.new.count ≡ self.old.count }
        ensures fails_in { self.new.fails_in ≡ 0 }
        ensures stops_after { self.new.stops_after ≡ None }
        ensures stopped { self.new.is_stopped ≡ false }
    {
        self.fails_in = 0;
        self.stops_after = None;
        self.is_stopped = false;
    }

    // A call that changes or syncs is done, or is stopped within.
    pub(crate) fn end(&mut self) -> io::Result<()>
        ensures done { OnOk result (self.old.stops_after ≢ Some 0) }
        ensures stops { OnErr result (self.old.stops_after ≡ Some 0) }
        ensures kind { IfErr result (λ e. error_kind e ≡ Other) }
        ensures count { Counts result self.old.count self.new.count }
        ensures ok { OnOk result (self.new ≡ record self.old { stops_after = one_fewer self.old.stops_after }) }
        ensures err { OnErr result (self.new ≡ record self.old { count = self.new.count; is_stopped = true }) }
    {
        match self.stops_after {
            Some(0) => {
                self.is_stopped = true;
                Err(self.fail())
            }
            Some(n) => {
                self.stops_after = Some(n - 1);
                Ok(())
            }
            None => Ok(()),
        }
    }
}
