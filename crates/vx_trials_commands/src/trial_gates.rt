//! The gate of trials, one type with a switch, so that what goes through gates is proved for one type alone.

use std::sync::atomic::{AtomicBool, AtomicU64, Ordering};
use vx_workers::Gate;

/// The turns for which a gate holds a call, each of them one load.
const TURNS: u32 = 100_000_000;

/// What a gate does with who enters.
#[derive(Clone, Copy, Debug)]
enum Way {
    /// Lets everybody through.
    Open,
    /// Answers false at once.
    Shut,
    /// Holds each of two until the other has entered.
    Meeting,
    /// Holds script 1 at its first entry until script 2 has entered twice, so until a call of script 2 was
    /// answered; and script 2 at its second entry until script 1 has entered.
    Crossing,
}

/// A gate that lets everybody through, or nobody, or shows that two work side by side.
#[derive(Drop)]
pub(crate) struct TrialGate {
    way: Way,
    first: AtomicU64,
    second: AtomicU64,
    is_spent: AtomicBool,
}

impl TrialGate {
    fn new(way: Way) -> Self {
        TrialGate {
            way,
            first: AtomicU64::new(0),
            second: AtomicU64::new(0),
            is_spent: AtomicBool::new(false),
        }
    }

    /// Lets everybody through.
    pub(crate) fn open() -> Self {
        TrialGate::new(Way::Open)
    }

    /// Never answers true.
    pub(crate) fn shut() -> Self {
        TrialGate::new(Way::Shut)
    }

    /// Holds each of two images until the other has entered.
    pub(crate) fn meeting() -> Self {
        TrialGate::new(Way::Meeting)
    }

    /// Holds each of two scripts until a call of the other was answered.
    pub(crate) fn crossing() -> Self {
        TrialGate::new(Way::Crossing)
    }

    /// All that had to enter have entered, and nobody was held for all turns.
    pub(crate) fn is_met(&self) -> bool {
        let first = self.first.load(Ordering::SeqCst);
        let second = self.second.load(Ordering::SeqCst);
        let is_met = match self.way {
            Way::Open | Way::Shut => true,
            Way::Meeting => first == 2,
            Way::Crossing => first == 2 && second == 2,
        };
        is_met && !self.is_spent.load(Ordering::SeqCst)
    }

    /// Holds a call until the other has entered so often.
    fn hold(&self, other: &AtomicU64, often: u64) -> bool {
        for _ in 0..TURNS {
            if other.load(Ordering::SeqCst) >= often {
                return true;
            }
        }
        self.is_spent.store(true, Ordering::SeqCst);
        false
    }

    /// One of two enters.
    fn meet(&self) -> bool {
        self.first.fetch_add(1, Ordering::SeqCst);
        self.hold(&self.first, 2)
    }

    /// A script enters.
    fn cross(&self, script: u32) -> bool {
        if script == 1 {
            self.first.fetch_add(1, Ordering::SeqCst) != 0 || self.hold(&self.second, 2)
        } else {
            self.second.fetch_add(1, Ordering::SeqCst) != 1 || self.hold(&self.first, 1)
        }
    }
}

impl Gate for TrialGate {
    fn enter(&self, call: u32) -> bool {
        match self.way {
            Way::Open => true,
            Way::Shut => false,
            Way::Meeting => self.meet(),
            Way::Crossing => self.cross(call),
        }
    }
}
