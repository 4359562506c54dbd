//! Folders that take the places of those of sites.
ghost use Rattle.std.specs.Prelude.{◌≡◌, ◌==◌, ℕ, suc, [], map, Some, None, IfSome, option_map, if◌then◌else◌};
ghost use Rattle.std.specs.Option.{option_or};
ghost use Rattle.clap.specs.Words.{found_of, rows_of};
ghost use Rattle.pinepolo_args.specs.NewFolders.{AreNewFolders, folder_at, folder_in, folder_named, folder_of, site_named, texts};

use clap::ArgMatches;
use cs_schema::limits;

/// The folders that take the places of those of sites, in the order of the sites from 1.
#[derive(Clone, Copy)]
pub struct NewFolders<'a> {
    folders: [Option<&'a str>; limits::SITES as usize],
}

impl<'a> NewFolders<'a> {
    /// No site has a new folder.
    pub fn none() -> Self
        ensures { AreNewFolders [] result.folders }
    {
        Self {
            folders: [None; limits::SITES as usize],
        }
    }

    /// The new folder of a site, if it has one.
    pub fn folder(&self, site: u8) -> Option<&'a str>
        ensures { option_map (λ f. f.now) result ≡ folder_of self.now.folders site }
    {
        match self.folders.get(usize::from(site).checked_sub(1)?) {
            Some(folder) => *folder,
            None => None,
        }
    }

    /// Whether a site has a new folder.
    pub fn has_any(&self) -> bool {
        self.folders.iter().any(|folder| folder.is_some())
    }

    /// These folders and one more; none if the site is not from 1 to 16, or has one.
    fn with(self, site: u8, folder: &'a str) -> Option<Self>
        ensures free { IfSome result (λ _. (place : ℕ) → site ≡ suc place → folder_at self.entry.folders place ≡ None) }
        ensures more { IfSome result (λ more. (place : ℕ)
            → folder_at more.folders place ≡ (if site == suc place then Some folder.now else folder_at self.entry.folders place)) }
    {
        let mut folders = self.folders;
        let place = usize::from(site).checked_sub(1)?;
        if folders.get(place)?.is_some() {
            return None;
        }
        folders[place] = Some(folder);
        Some(Self { folders })
    }

    /// These folders and that of a text `SITE=FOLDER`; none if it is no such text, or its site has one.
    fn with_text(self, text: &'a str) -> Option<Self>
        ensures free { IfSome result (λ _. (place : ℕ) → site_named text.now ≡ suc place → folder_at self.entry.folders place ≡ None) }
        ensures more { IfSome result (λ more. (place : ℕ) → folder_at more.folders place
            ≡ (if site_named text.now == suc place then Some (folder_named text.now) else folder_at self.entry.folders place)) }
    {
        let (site, folder) = site_and_folder(text)?;
        self.with(site, folder)
    }

    /// These folders and those of texts; none if one is no `SITE=FOLDER` with a site from 1 to 16, or a site has two.
    fn with_texts(self, texts: &[&'a str]) -> Option<Self>
        ensures { IfSome result (λ more. (place : ℕ) → folder_at more.folders place
            ≡ option_or (folder_at self.entry.folders place) (folder_in (map (λ t. t.now) texts.now) (suc place))) }
    {
        let mut more = self;
        for text in texts {
            more = more.with_text(text)?;
        }
        Some(more)
    }
}

/// The site and the folder of a text `SITE=FOLDER`.
fn site_and_folder(text: &str) -> Option<(u8, &str)>
    ensures { IfSome result (λ r. (r.0 ≡ site_named text.now) × (r.1.now ≡ folder_named text.now)) }
{
    let (site, folder) = text.split_once('=')?;
    let site = site.parse::<u8>().ok()?;
    if folder.is_empty() {
        return None;
    }
    Some((site, folder))
}

/// The new folders that the arguments give; none if one is no `SITE=FOLDER` with a site from 1 to 16, or a site has two.
pub fn new_folders_of<'a>(found: &ArgMatches<'a>) -> Option<NewFolders<'a>>
    ensures { IfSome result (λ new. AreNewFolders (texts (rows_of (found_of found.now))) new.folders) }
{
    match found.get_strs("to") {
        Some(texts) => NewFolders::none().with_texts(texts),
        None => Some(NewFolders::none()),
    }
}
