//! The call at which a shelf in memory stops.
ghost use Rattle.std.specs.Prelude.{◌≡◌, ◌≤◌, ◌⊎◌};
ghost use Rattle.cs_store.specs.Fault.{CountsFault};

/// When a shelf stops: `after` calls succeed, the next one takes effect or not, and from then on every call fails with a
/// fault of the device and changes nothing.
#[derive(Clone, Copy, Debug, PartialEq, Eq)]
pub struct Stop {
    pub after: u64,
    pub takes_effect: bool,
}

/// The outcome of a call.
#[derive(Clone, Copy, Debug, PartialEq, Eq)]
pub enum Course {
    Well,
    StopsBefore,
    StopsAfter,
}

/// The outcome of the next call. Faults of the device are counted.
pub fn next_course(stop: &mut Option<Stop>, faults: &mut u64) -> Course
    ensures device { (result ≡ Course.Well) ⊎ CountsFault faults.old faults.new }
    ensures counted { faults.old ≤ faults.new }
{
    let (course, left) = match *stop {
        None => (Course::Well, None),
        Some(
            Stop {
                after: 0,
                takes_effect,
            },
        ) => {
            *faults = faults.saturating_add(1);
            let course = if takes_effect {
                Course::StopsAfter
            } else {
                Course::StopsBefore
            };
            let dead = Stop {
                after: 0,
                takes_effect: false,
            };
            (course, Some(dead))
        }
        Some(
            Stop {
                after,
                takes_effect,
            },
        ) => {
            let next = Stop {
                after: after - 1,
                takes_effect,
            };
            (Course::Well, Some(next))
        }
    };
    *stop = left;
    course
}
