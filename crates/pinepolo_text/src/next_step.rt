//! What to do next about an answer.
use crate::at::At;
use crate::sited::ToWords;
use crate::unread::Mend;
use cs_reports::{Next, SiteWords, StoreWords};
use cs_schema::Loss;
use cs_store::Fault;
use pinepolo_places::WorkKind;
use std::fmt;

/// A restore that is to be done next, or what is to be mended first.
#[derive(Clone, Copy)]
pub struct Restoring<'a> {
    pub at: At<'a>,
    /// The verb that was asked, and is asked again once something is mended.
    pub verb: &'static str,
    /// What makes the restore needless once it is mended, if anything.
    pub mend: Option<Mend<'a>>,
    /// Whether it finds nothing wrong by itself.
    pub accepts_loss: bool,
    pub loss: Loss,
}

impl fmt::Display for Restoring<'_> {
    fn fmt<W: fmt::Write>(&self, f: &mut fmt::Formatter<W>) -> fmt::Result {
        let (at, loss) = (self.at, self.loss);
        let store = at.words();
        let to = ToWords { at, loss };
        let sites = SiteWords(loss);
        if let Some(mend) = &self.mend {
            let verb = self.verb;
            write!(
                f,
                "{mend}, then pinepolo {verb} {store}\nif that cannot be done: "
            )?;
        }
        let option = if self.accepts_loss {
            "--accept-loss "
        } else {
            ""
        };
        write!(f, "pinepolo restore {option}{to}{store}{sites}")
    }
}

/// What to do next about an answer. Its text is a command that can be pasted, or advice; the least harmful step comes first, and
/// what is to be done if it fails is on a line of its own.
#[derive(Clone, Copy)]
pub enum NextStep<'a> {
    /// Work that was left unfinished is resumed.
    Resume(WorkKind, StoreWords<'a>),
    /// Sites are restored.
    Restore(Restoring<'a>),
    /// Something is mended, and the same is asked again.
    Again(Mend<'a>),
    /// What a fault of a store asks for.
    ByFault(Fault, StoreWords<'a>),
    /// This verb is asked of the store.
    Ask(&'static str, StoreWords<'a>),
    /// Files of some of these sites are brought back.
    BringBack(Loss),
    /// Files of one of these sites are brought back.
    BringBackOne(Loss),
    /// Losses of up to so many sites are tried.
    TryMore(u8, StoreWords<'a>),
    /// Tables are compared with what is known of the right one.
    Compare(StoreWords<'a>),
    /// A manifest tells a diagnosis which files are the others.
    DiagnoseBy(StoreWords<'a>),
    /// A loss that is in doubt is accepted, by a restore that begins or that is resumed.
    Accept(Loss, StoreWords<'a>),
    AcceptResumed(Loss, StoreWords<'a>),
}

impl fmt::Display for NextStep<'_> {
    fn fmt<W: fmt::Write>(&self, f: &mut fmt::Formatter<W>) -> fmt::Result {
        match self {
            NextStep::Resume(kind, store) => write!(f, "pinepolo {kind} --resume {store}"),
            NextStep::Restore(restoring) => write!(f, "{restoring}"),
            NextStep::Again(mend) => write!(f, "{mend}, then run it again"),
            NextStep::ByFault(fault, store) => {
                let next = Next {
                    store: *store,
                    fault,
                };
                write!(f, "{next}")
            }
            NextStep::Ask(verb, store) => write!(f, "pinepolo {verb} {store}"),
            NextStep::BringBack(loss) => write!(
                f,
                "bring back files of some of these sites: {loss} can't be recovered together"
            ),
            NextStep::BringBackOne(loss) => {
                write!(
                    f,
                    "bring back files of one of the sites {loss}: that is enough"
                )
            }
            NextStep::TryMore(sites, store) => {
                write!(f, "pinepolo diagnose --at-most {sites} {store}")
            }
            NextStep::Compare(store) => write!(
                f,
                "compare the tables with a manifest (pinepolo diagnose --manifest FILE {store}) or a backup, or look at the files (pinepolo show {store} FILE): the files alone cannot tell which is right"
            ),
            NextStep::DiagnoseBy(store) => {
                write!(
                    f,
                    "diagnose it by this manifest: pinepolo diagnose --manifest FILE {store}"
                )
            }
            NextStep::Accept(loss, store) => {
                let sites = SiteWords(*loss);
                write!(
                    f,
                    "if these sites are known to be gone: pinepolo restore --accept-loss {store}{sites}"
                )
            }
            NextStep::AcceptResumed(loss, store) => write!(
                f,
                "if sites {loss} are known to be gone: pinepolo restore --resume --accept-loss {store}"
            ),
        }
    }
}

/// The line of what to do next, if anything is.
#[derive(Clone, Copy)]
pub struct NextLine<'a>(pub Option<NextStep<'a>>);

impl fmt::Display for NextLine<'_> {
    fn fmt<W: fmt::Write>(&self, f: &mut fmt::Formatter<W>) -> fmt::Result {
        match &self.0 {
            Some(next) => writeln!(f, "next: {next}"),
            None => Ok(()),
        }
    }
}
