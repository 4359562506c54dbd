//! The calls that were made.
ghost use Rattle.std.specs.Prelude.{◌≡◌, IfOk, OnErr, OnOk};
ghost use Rattle.cs_file_system.specs.Calls.{Adds, IsNoMore};
ghost use Rattle.file_system_tests.specs.History.{call_of, calls_of, event_call};

use crate::events::{Event, What};
use std::alloc::Global;
use std::io;

/// The calls that were made, in their order.
#[derive(Drop)]
pub struct Log {
    alloc: Global,
    pub events: Vec<Event>,
}

/// The event of a call.
fn event_of(alloc: Global, what: What, path: &str, to: &str) -> io::Result<Event>
    ensures { IfOk result (λ event. event_call event ≡ call_of what path.now to.now) }
{
    let first = String::from_str(alloc, path)?;
    let second = String::from_str(alloc, to)?;
    Ok(Event {
        what,
        path: first,
        to: second,
    })
}

impl Log {
    /// No calls.
    pub fn new(alloc: Global) -> Self {
        Self {
            alloc,
            events: Vec::new(alloc),
        }
    }

    /// Adds a call that was made with its paths, the second one empty if it has one.
    pub fn add(&mut self, what: What, path: &str, to: &str) -> io::Result<()>
        ensures ok { OnOk result (Adds (call_of what path.now to.now)
            (λ calls. calls ≡ calls_of self.old.events.items) (λ calls. calls ≡ calls_of self.new.events.items)) }
        ensures err { OnErr result (IsNoMore
            (λ calls. calls ≡ calls_of self.old.events.items) (λ calls. calls ≡ calls_of self.new.events.items)) }
    {
        let event = event_of(self.alloc, what, path, to)?;
        self.events.push(event)?;
        Ok(())
    }
}
