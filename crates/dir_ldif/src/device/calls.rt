//! The count of calls by which the devices for tests fail.

ghost use Rattle.std.specs.Prelude.{◌≡◌, ◌-◌, ◌↔◌, IsTrue, MatchBool};
ghost use Rattle.dir_ldif.specs.Device.{one_more};
ghost use Rattle.dir_ldif.specs.TestDevices.{calls_after};

/// The calls of a device for tests: how many will still succeed, and how many have failed.
#[derive(Clone, Copy)]
pub(crate) struct Calls {
    // the greatest number: all succeed
    good: u64,
    pub(crate) failures: u64,
}

impl Calls {
    /// No call fails.
    pub(crate) const ALL_GOOD: Calls = Calls {
        good: u64::MAX,
        failures: 0,
    };

    /// Each call from this one on fails; the first call is 1.
    pub(crate) fn failing_from(call: u64) -> Calls
        ensures { result ≡ record { good = call - 1; failures = 0 } }
    {
        Calls {
            good: call.saturating_sub(1),
            failures: 0,
        }
    }

    /// Counts a call, and answers whether it fails.
    pub(crate) fn fails(&mut self) -> bool
        ensures fails { IsTrue result ↔ (self.old.good ≡ 0) }
        ensures failures { MatchBool result (self.new.failures ≡ one_more self.old.failures) (self.new.failures ≡ self.old.failures) }
        ensures good { self.new.good ≡ calls_after self.old.good }
    {
        if self.good == 0 {
            self.failures = self.failures.saturating_add(1);
            return true;
        }
        if self.good != u64::MAX {
            self.good -= 1;
        }
        false
    }
}
