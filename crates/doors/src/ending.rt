//! An end that is asked for.

use std::alloc::{AllocError, Global};
use std::sync::Arc;
use std::sync::atomic::{AtomicBool, AtomicU64, Ordering};
use std::{fs, rt};

// How long it takes from one look for the file to the next, in milliseconds.
const LOOK_MILLISECONDS: u64 = 200;

/// A file whose being there asks for the end. All doors share it.
#[derive(Drop)]
pub(crate) struct Ending {
    file: Option<String>,
    found: AtomicBool,
    // When the next look is due, in milliseconds.
    due: AtomicU64,
}

impl Ending {
    /// An end that is asked for by a file of this name, or never.
    pub(crate) fn new(
        alloc: Global,
        file: Option<&str>,
    ) -> Result<Arc<Ending, Global>, AllocError> {
        let file = match file {
            Some(name) => Some(String::from_str(alloc, name)?),
            None => None,
        };
        let ending = Ending {
            file,
            found: AtomicBool::new(false),
            due: AtomicU64::new(0),
        };
        Ok(Arc::new(alloc, ending)?)
    }

    /// Whether the end may be asked for at all.
    pub(crate) fn may_come(&self) -> bool {
        self.file.is_some()
    }

    // Whether a look is due, which then puts off the next.
    fn is_due<R: rt::Clock>(&self, rt: &R) -> bool {
        let Ok(now) = rt.monotonic() else {
            return true;
        };
        let now = now
            .as_secs()
            .saturating_mul(1000)
            .saturating_add(u64::from(now.subsec_millis()));
        if now < self.due.load(Ordering::SeqCst) {
            return false;
        }
        self.due
            .store(now.saturating_add(LOOK_MILLISECONDS), Ordering::SeqCst);
        true
    }

    /// Whether the file was found, by a look at this time or, where none is due, before.
    pub(crate) fn is_asked<R: rt::Clock + rt::Files>(&self, rt: &R) -> bool {
        if self.found.load(Ordering::SeqCst) {
            return true;
        }
        let Some(file) = &self.file else {
            return false;
        };
        let is_there = self.is_due(rt) && fs::exists(rt, file.as_str()).unwrap_or(false);
        if is_there {
            self.found.store(true, Ordering::SeqCst);
        }
        is_there
    }
}
