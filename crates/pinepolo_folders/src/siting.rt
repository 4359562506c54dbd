//! Requests, with the folders of the sites that they name.
ghost use Rattle.std.specs.Prelude.{◌≤◌, IfOk};
ghost use Rattle.pinepolo_folders.specs.Siting.{AreSited, IsSited};

use crate::folders::Folders;
use cs_file_system::StoreFiles;
use cs_schema::Loss;
use pinepolo_args::{ParseExit, Request, Verb};
use pinepolo_places::{AwaySite, Sited, VerbError};

/// A request, with the folders of its store's sites found.
#[derive(Drop)]
pub struct SitedRequest<'x> {
    /// What is to be run: a request, or why there is none.
    pub parsed: Result<Request<'x>, ParseExit>,
    /// The sites whose folders are away.
    pub away: Vec<AwaySite>,
}

/// A request whose sites are refused.
#[derive(Drop)]
pub struct SitesRefusal<'x> {
    pub request: Request<'x>,
    /// Why.
    pub error: VerbError,
}

/// A loss with the sites that are away.
fn lost_with(lost: Loss, away: &[AwaySite]) -> Loss {
    let mut loss = lost;
    for away in away {
        if (1..=16).contains(&away.site) {
            loss = loss.with(away.site);
        }
    }
    loss
}

/// Counts the sites that are away as lost, if the request is `design`.
fn lose_away(request: &mut Request<'_>, away: &[AwaySite])
    ensures { IsSited request.old request.new }
{
    if let Verb::Design(args) = &mut request.verb {
        args.lost = lost_with(args.lost, away);
    }
}

/// Whether work that was stopped is to go on.
fn resumes(verb: &Verb<'_>) -> bool {
    match verb {
        Verb::Restore(args) => args.resumes,
        _ => false,
    }
}

impl<'x> SitedRequest<'x> {
    /// Where the sites of the store stand, if each has a folder of its own.
    pub fn sites(&self) -> Option<Sited<'_>> {
        match &self.parsed {
            Ok(request) => match request.sites {
                Some(file) => Some(Sited {
                    file,
                    away: self.away.as_slice(),
                }),
                None => None,
            },
            Err(_) => None,
        }
    }
}

impl<R: StoreFiles + Alloc + Copy + Drop> Folders<R> {
    /// Finds the folders of the sites of what was asked for: if it names a SITES file, each site of its store has the
    /// folder that this file names, or the one that takes its place, and otherwise all sites have the store's.
    pub fn find_sites_of<'x>(
        &mut self,
        parsed: Result<Request<'x>, ParseExit>,
    ) -> Result<SitedRequest<'x>, SitesRefusal<'x>>
        ensures { IfOk result (λ sited. AreSited parsed.entry sited.parsed) }
    {
        self.sites = None;
        self.new_sites = None;
        let mut request = match parsed {
            Ok(request) => request,
            Err(exit) => {
                let (parsed, away) = (Err(exit), Vec::new(self.alloc));
                return Ok(SitedRequest { parsed, away });
            }
        };
        let away = match request.sites {
            Some(file) => {
                let (store, resumes) = (request.verb.path(), resumes(&request.verb));
                match self.use_sites(file, store, &request.to, resumes) {
                    Ok(away) => away,
                    Err(error) => return Err(SitesRefusal { request, error }),
                }
            }
            None => Vec::new(self.alloc),
        };
        if let Some(file) = request.new_sites {
            if let Err(error) = self.use_new_sites(file, &request.verb) {
                return Err(SitesRefusal { request, error });
            }
        }
        lose_away(&mut request, away.as_slice());
        let parsed = Ok(request);
        Ok(SitedRequest { parsed, away })
    }
}
