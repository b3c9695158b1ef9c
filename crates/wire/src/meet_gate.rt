// A gate at which two ranks meet.

use crate::Gate;
use std::hint::spin_loop;
use std::sync::atomic::Ordering::SeqCst;
use std::sync::atomic::{AtomicBool, AtomicU64};

/// How many ranks are a meeting.
const MEETING: u64 = 2;

/// A gate that shows whether two ranks step at one time.
///
/// It counts who enters. The first who does is held until a second one is in, but for no more than
/// `limit` looks at the count; whoever enters after it is not held. The number of a rank means
/// nothing to it.
#[derive(Drop)]
pub struct MeetGate {
    limit: u64,
    entered: AtomicU64,
    met: AtomicBool,
}

impl MeetGate {
    /// A gate that nobody has entered. With limit 0 it holds nobody. It takes no memory.
    pub const fn new(limit: u64) -> MeetGate {
        MeetGate {
            limit,
            entered: AtomicU64::new(0),
            met: AtomicBool::new(false),
        }
    }

    /// Whether the first one was let go because a second one was in.
    pub fn met(&self) -> bool {
        self.met.load(SeqCst)
    }

    // Looks at the count until a second one is in, and at most so often as the limit says.
    fn hold(&self) {
        for _look in 0..self.limit {
            if self.entered.load(SeqCst) >= MEETING {
                self.met.store(true, SeqCst);
                return;
            }
            spin_loop();
        }
    }
}

impl Gate for MeetGate {
    fn enter(&self, _rank: u32) {
        let before = self.entered.fetch_add(1, SeqCst);
        if before == 0 {
            self.hold();
        }
    }
}
