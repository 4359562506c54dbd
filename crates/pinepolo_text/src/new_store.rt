//! What a verb answers that made a store, in words.
use pinepolo_answers::NewStore;
use std::fmt;

/// A store that was made, as lines.
#[derive(Clone, Copy)]
pub struct NewStoreText<'a>(pub &'a NewStore);

impl fmt::Display for NewStoreText<'_> {
    fn fmt<W: fmt::Write>(&self, f: &mut fmt::Formatter<W>) -> fmt::Result {
        let store = self.0;
        let (rows, count, k) = (store.rows, store.files.len(), store.k);
        if k == 0 && store.fatal.count() > 0 {
            let fatal = store.fatal;
            writeln!(f, "warning: not safe for K 1: site {fatal} is fatal")?;
        }
        writeln!(f, "ok rows={rows} files={count} k={k}")
    }
}
