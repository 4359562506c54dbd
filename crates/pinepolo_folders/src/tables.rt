//! Tables as CSV, and new stores, in the folders of the system. No contract is told what they hold.
ghost use Rattle.std.specs.Prelude.{⊤};

use crate::folders::Folders;
use crate::new_store::SystemStore;
use cs_file_system::{NotedFile, StoreFiles};
use cs_folders::{open_text, way_to, write_new};
use cs_store::StoreFault;
use pinepolo_places::{Tables, Way};

impl<R: StoreFiles + Alloc + Copy + Drop> Tables for Folders<R> {
    type Input = NotedFile;

    type NewStore = SystemStore<R>;

    ghost opens_table = { λ s path input t. ⊤ };

    ghost begins = { λ s path catalog store t. ⊤ };

    ghost writes_table = { λ s path text t. ⊤ };

    fn way(&self, path: &str) -> Result<Way, StoreFault> {
        way_to(self.alloc, &self.rt, path)
    }

    fn table(&mut self, path: &str) -> Result<NotedFile, StoreFault> {
        let opened = open_text(&self.rt, path);
        self.told(opened)
    }

    fn new_store(
        &mut self,
        path: &str,
        catalog: &[u8],
        replaces: bool,
    ) -> Result<SystemStore<R>, StoreFault> {
        let sites = &self.new_sites;
        let made = SystemStore::make(self.alloc, self.rt, path, catalog, sites, replaces);
        self.told(made)
    }

    fn write_table(&mut self, path: &str, text: &[u8]) -> Result<(), StoreFault> {
        let written = write_new(self.alloc, &self.rt, path, text);
        self.told(written)
    }
}
