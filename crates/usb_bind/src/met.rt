//! Which bytes were met.
ghost use Rattle.std.specs.Prelude.{◌≡◌, ◌+◌, ◌≤◌, true, not, count_by, [], false, slice_index_or, slice_set, if◌then◌else◌};

/// The bytes that were met, and how many they are.
#[derive(Drop)]
pub(crate) struct Met {
    pub(crate) at: [bool; 256],
    pub(crate) count: u32,
    ghost room: { count + count_by not at ≤ 256 },
}

impl Met {
    ghost use Rattle.usb_bind.specs.Seen.{KnowsNumbers, KnowsEnds};

    /// None was met.
    #[tactic(auto, using(crate::proofs::Meets::met_none))]
    pub(crate) fn none() -> Met
        ensures { KnowsNumbers result [] }
    {
        Met {
            at: [false; 256],
            count: 0,
        }
    }

    /// Byte 0 was met, which does not count.
    #[tactic(auto, using(crate::proofs::Meets::met_zero))]
    pub(crate) fn zero() -> Met
        ensures { KnowsEnds result [] }
    {
        let mut at = [false; 256];
        at[0] = true;
        Met { at, count: 0 }
    }

    /// Meets a byte: whether it is the first time.
    pub(crate) fn meet(&mut self, n: u8) -> bool
        ensures first { result ≡ not (slice_index_or self.old.at n false) }
        ensures at { self.new.at ≡ slice_set self.old.at n true }
        ensures count { self.new.count ≡ self.old.count + (if result then 1 else 0) }
    {
        if self.at[n as usize] {
            return false;
        }
        self.at[n as usize] = true;
        self.count += 1;
        true
    }
}
