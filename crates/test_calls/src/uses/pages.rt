//! A cache of pages in front of a disk.
ghost use Rattle.std.specs.Prelude.{◌≡◌, slice_index};

use crate::few::passes;
use hashlink_uses::pages::{PageCache, PageError, Store};
use std::alloc::{AllocError, Global};
use std::process::ExitCode;

/// A disk of numbered pages, whether it can be written, and how often it was.
#[derive(Drop)]
struct Disk {
    pages: Vec<u32>,
    is_locked: bool,
    saves: u32,
}

/// Why a disk fails: there is no such page, or it cannot be written.
#[derive(PartialEq, Drop)]
enum DiskError {
    NoPage,
    Locked,
}

impl Store<u32> for Disk {
    type Error = DiskError;

    ghost page = { λ d n. slice_index d.pages.items n };

    fn load(&self, number: u64) -> Result<u32, DiskError> {
        match self.pages.get(number as usize) {
            Some(page) => Ok(*page),
            None => Err(DiskError::NoPage),
        }
    }

    fn save(&mut self, number: u64, value: u32) -> Result<(), DiskError> {
        if self.is_locked {
            return Err(DiskError::Locked);
        }
        match self.pages.get_mut(number as usize) {
            Some(page) => {
                *page = value;
                self.saves = self.saves.wrapping_add(1);
                Ok(())
            }
            None => Err(DiskError::NoPage),
        }
    }
}

/// A cache of two pages in front of a disk of four.
fn four_pages(alloc: Global, is_locked: bool) -> Result<PageCache<u32, Disk>, AllocError> {
    let pages = vec![in alloc; 10, 11, 12, 13]?;
    let disk = Disk {
        pages,
        is_locked,
        saves: 0,
    };
    Ok(PageCache::new(alloc, 2, disk))
}

/// Whether each page is read as it was last written, even after it has left the cache. In the end the disk
/// has each page, saved once for each time that it left changed.
fn is_read_as_written(mut cache: PageCache<u32, Disk>) -> bool {
    let is_written = cache.write(0, 20).is_ok()
        & cache.write(1, 21).is_ok()
        & cache.write(0, 30).is_ok()
        & cache.write(2, 22).is_ok();
    let read = [cache.read(0), cache.read(1), cache.read(2), cache.read(3)];
    is_written
        & (read == [Ok(30), Ok(21), Ok(22), Ok(13)])
        & (cache.read(4) == Err(DiskError::NoPage))
        & cache.close().is_ok_and(|disk| (disk.saves == 3)
            & (disk.pages.as_slice() == [30, 21, 22, 13].as_slice()))
}

#[test]
fn a_page_is_read_as_it_was_last_written(rt: HostRuntime) -> ExitCode {
    passes(match four_pages(rt.alloc(), false) {
        Ok(cache) => is_read_as_written(cache),
        Err(AllocError) => false,
    })
}

/// Whether the pages that the disk fails to save stay in the cache, other pages are still read, and no page
/// can be written if another has to leave for it.
fn stays_in_the_cache(mut cache: PageCache<u32, Disk>) -> bool {
    let is_written = cache.write(0, 20).is_ok() & cache.write(1, 21).is_ok();
    let refused = cache.write(2, 22) == Err(PageError::Store(DiskError::Locked));
    let read = [cache.read(0), cache.read(1), cache.read(2), cache.read(3)];
    is_written
        & refused
        & (read == [Ok(20), Ok(21), Ok(12), Ok(13)])
        & cache
            .close()
            .is_err_and(|(_, error)| error == DiskError::Locked)
}

#[test]
fn a_page_that_cannot_be_saved_stays(rt: HostRuntime) -> ExitCode {
    passes(match four_pages(rt.alloc(), true) {
        Ok(cache) => stays_in_the_cache(cache),
        Err(AllocError) => false,
    })
}
