//! The time and the memory of this process, as the system tells them.
use crate::folders::Folders;
use pinepolo_places::Meter;
use std::alloc::Global;
use std::fs;
use std::io::Read;
use std::rt::Files;
use std::time::Clock;

/// Where the system tells how much memory this process has had.
const STATUS: &str = "/proc/self/status";

/// Before the number of KiB in a line of that text.
const PEAK: &str = "VmHWM:";

/// The text of a file that is read to its end; `None` if it can't be read.
fn text_at<R: Files>(alloc: Global, rt: &R, path: &str) -> Option<String> {
    let mut file = fs::open(rt, path).ok()?;
    let mut text = String::new(alloc);
    file.read_to_string(&mut text).ok()?;
    Some(text)
}

/// The number of KiB that follows a name in a text of lines.
fn number_after(text: &str, name: &str) -> Option<u64> {
    for line in text.lines() {
        if let Some(rest) = line.strip_prefix(name) {
            return rest.split_whitespace().next()?.parse::<u64>().ok();
        }
    }
    None
}

impl<R: Files + Clock + Copy> Meter for Folders<R> {
    fn milliseconds(&self) -> u64 {
        match self.rt.monotonic() {
            Ok(time) => u64::try_from(time.as_millis()).unwrap_or(u64::MAX),
            Err(_) => 0,
        }
    }

    fn peak(&self) -> Option<u64> {
        let text = text_at(self.alloc, &self.rt, STATUS)?;
        number_after(text.as_str(), PEAK)
    }
}
