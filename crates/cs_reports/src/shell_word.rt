//! Paths and stores as words of a command line.
use std::fmt;

/// A path as a word that a shell reads as it is: between quotes if it has a blank or another special character, and behind
/// `./` if it would be read as an option.
#[derive(Clone, Copy)]
pub struct ShellWord<'a>(pub &'a str);

/// Whether a shell gives a character no meaning of its own.
fn is_plain(c: char) -> bool {
    matches!(c, 'a'..='z' | 'A'..='Z' | '0'..='9' | '_' | '-' | '.' | '/' | ',' | ':' | '=' | '@' | '%' | '+')
}

impl fmt::Display for ShellWord<'_> {
    fn fmt<W: fmt::Write>(&self, f: &mut fmt::Formatter<W>) -> fmt::Result {
        let path = self.0;
        if path.starts_with('-') {
            f.write_str("./")?;
        }
        if !path.is_empty() && path.chars().all(is_plain) {
            return f.write_str(path);
        }
        f.write_str("'")?;
        for c in path.chars() {
            match c {
                '\'' => f.write_str("'\\''")?,
                _ => f.write_char(c)?,
            }
        }
        f.write_str("'")
    }
}

/// A store as words of a command line: its path, behind the option for its SITES file if it has one.
#[derive(Clone, Copy)]
pub struct StoreWords<'a> {
    /// The folder of the store.
    pub store: &'a str,
    /// The path of the SITES file, if its sites have folders of their own.
    pub sites: Option<&'a str>,
}

impl fmt::Display for StoreWords<'_> {
    fn fmt<W: fmt::Write>(&self, f: &mut fmt::Formatter<W>) -> fmt::Result {
        if let Some(sites) = self.sites {
            let file = ShellWord(sites);
            write!(f, "--sites {file} ")?;
        }
        let store = ShellWord(self.store);
        write!(f, "{store}")
    }
}
