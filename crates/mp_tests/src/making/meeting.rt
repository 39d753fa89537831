//! A gate at which calls look for each other.
use mp_netlist::ModuleId;
use mp_phase::Gate;
use std::sync::Wait;
use std::sync::atomic::{AtomicU64, Ordering};

/// A gate whose calls for a time look for each other.
#[derive(Drop)]
pub struct Meeting {
    calls: u64,
    time: u32,
    entered: AtomicU64,
    met: AtomicU64,
}

/// How often a call looks for the others.
const LOOKS: u32 = 100_000_000;

impl Gate for Meeting {
    ghost use Rattle.std.specs.Prelude.{true};

    ghost may = { λ gate m from to. true };

    ghost passed = { λ gate m from to. true };

    fn enter<R: Wait>(&self, _rt: &R, _module: ModuleId, from: u32, _to: u32) {
        if from != self.time {
            return;
        }
        self.entered.fetch_add(1, Ordering::SeqCst);
        for _ in 0..LOOKS {
            if self.entered.load(Ordering::SeqCst) == self.calls {
                self.met.fetch_add(1, Ordering::SeqCst);
                break;
            }
        }
    }
}

impl Meeting {
    /// So many calls are to meet at a time. Nobody came yet.
    pub fn of(calls: u64, time: u32) -> Self {
        Meeting {
            calls,
            time,
            entered: AtomicU64::new(0),
            met: AtomicU64::new(0),
        }
    }

    /// Whether as many as are to meet saw each other.
    pub fn is_held(&self) -> bool {
        self.met.load(Ordering::SeqCst) == self.calls
    }
}

/// A meeting that is lent to a session.
#[derive(Clone, Copy, Drop)]
pub struct LentMeeting<'a> {
    pub meeting: &'a Meeting,
}

impl Gate for LentMeeting<'_> {
    ghost use Rattle.std.specs.Prelude.{true};

    ghost may = { λ gate m from to. true };

    ghost passed = { λ gate m from to. true };

    fn enter<R: Wait>(&self, rt: &R, module: ModuleId, from: u32, to: u32) {
        self.meeting.enter(rt, module, from, to);
    }
}
