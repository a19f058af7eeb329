//! What is looked after once a second: the database's files, its connection and the cache.
ghost use Rattle.scim_admin_streams.specs.Shelves.{KeepsShelf};

use crate::hosts::Host;
use crate::reloads::log;
use crate::watching::ServerWatch;
use scim_admin_streams::OpenShelf;
use scim_shelf::{Shelf, ShelfFault};
use scim_shelf_watch::WatchedShelf;
use scim_text::Failed;
use std::alloc::Global;

/// The first pause before a try to fill the cache, in ticks.
const FIRST_PAUSE: u64 = 60;

/// The longest pause before a try to fill the cache, in ticks.
const LONGEST_PAUSE: u64 = 3_840;

/// Why a server has to end.
#[derive(Clone, Copy, Debug, PartialEq, Eq)]
pub enum AdminEnding {
    /// The administrator asked for it.
    Stopped,
    /// The files of the database are gone.
    FilesGone,
    /// The connection to the database is shut, as after a failed sync.
    StoreShut,
}

/// What was found at the last ticks.
#[derive(Drop)]
pub(crate) struct Housekeeping {
    /// Whether the files of the database were gone at the last tick.
    were_files_gone: bool,
    /// The number of commits that had failed with the device at the last tick.
    device_faults: u64,
    /// Whether the server is to have a cache.
    has_cache: bool,
    /// Whether the cache was ever filled.
    was_filled: bool,
    /// The pause before the next try to fill the cache, in ticks; 0 while the cache is filled.
    pause: u64,
    /// How many ticks of the pause are left.
    left: u64,
}

impl Housekeeping {
    /// Returns the state before the first tick.
    pub(crate) fn new(has_cache: bool) -> Housekeeping {
        Housekeeping {
            were_files_gone: false,
            device_faults: 0,
            has_cache,
            was_filled: false,
            pause: 0,
            left: 0,
        }
    }

    /// Looks after the store, and returns why the server has to end, if it has to.
    pub(crate) fn tick<S: OpenShelf, H: Host>(
        &mut self,
        alloc: Global,
        shelf: &mut WatchedShelf<S, ServerWatch<H>>,
    ) -> Option<AdminEnding>
        ensures keeps { KeepsShelf ⟦<WatchedShelf<S, ServerWatch<H>> as Shelf>⟧.stands
            ⟦<WatchedShelf<S, ServerWatch<H>> as Shelf>⟧.is_honest ⟦<WatchedShelf<S, ServerWatch<H>> as Shelf>⟧.has_round shelf.old shelf.new }
    {
        if self.were_files_gone {
            return Some(AdminEnding::FilesGone);
        }
        if shelf.watcher_mut().are_files_gone() {
            self.were_files_gone = true;
            log(
                shelf,
                "the database's files are gone: nothing is committed any more, and the server ends",
            );
            return None;
        }
        if self.is_shut(alloc, shelf) {
            log(shelf, "the database's connection is shut: the server ends");
            return Some(AdminEnding::StoreShut);
        }
        self.look_after_cache(alloc, shelf);
        None
    }

    /// Whether a commit failed with the device since the last tick, and a row of the audit can't be read.
    fn is_shut<S: OpenShelf, H: Host>(
        &mut self,
        alloc: Global,
        shelf: &mut WatchedShelf<S, ServerWatch<H>>,
    ) -> bool
        ensures keeps { KeepsShelf ⟦<WatchedShelf<S, ServerWatch<H>> as Shelf>⟧.stands
            ⟦<WatchedShelf<S, ServerWatch<H>> as Shelf>⟧.is_honest ⟦<WatchedShelf<S, ServerWatch<H>> as Shelf>⟧.has_round shelf.old shelf.new }
    {
        let faults = shelf.watcher().commits().device_faults;
        if faults == self.device_faults {
            return false;
        }
        self.device_faults = faults;
        matches!(
            shelf.rows_from(alloc, 1, 1),
            Err(Failed::Because(ShelfFault::Device))
        )
    }

    /// Notes whether the cache is filled. If it was given up, or couldn't be filled at the start, tries to fill
    /// it after a pause, which grows from a minute to about an hour.
    fn look_after_cache<S: OpenShelf, H: Host>(
        &mut self,
        alloc: Global,
        shelf: &mut WatchedShelf<S, ServerWatch<H>>,
    )
        ensures keeps { KeepsShelf ⟦<WatchedShelf<S, ServerWatch<H>> as Shelf>⟧.stands
            ⟦<WatchedShelf<S, ServerWatch<H>> as Shelf>⟧.is_honest ⟦<WatchedShelf<S, ServerWatch<H>> as Shelf>⟧.has_round shelf.old shelf.new }
    {
        if shelf.resident().is_some() {
            self.was_filled = true;
            self.pause = 0;
            return;
        }
        if !self.has_cache {
            return;
        }
        if self.pause == 0 {
            self.pause = FIRST_PAUSE;
            self.left = FIRST_PAUSE;
            log(shelf, self.lack_line());
            return;
        }
        self.left = self.left.saturating_sub(1);
        if self.left == 0 {
            self.try_to_fill(alloc, shelf);
        }
    }

    /// Returns the line for the operator when the cache isn't filled.
    fn lack_line(&self) -> &'static str {
        if self.was_filled {
            "the cache was given up for lack of memory: reads go to the database"
        } else {
            "the cache isn't filled for lack of memory: reads go to the database"
        }
    }

    /// Returns the line for the operator when the cache is filled.
    fn filled_line(&self) -> &'static str {
        if self.was_filled {
            "the cache is filled again"
        } else {
            "the cache is filled"
        }
    }

    /// Tries to fill the cache. Otherwise doubles the pause, up to the longest one.
    fn try_to_fill<S: OpenShelf, H: Host>(
        &mut self,
        alloc: Global,
        shelf: &mut WatchedShelf<S, ServerWatch<H>>,
    )
        ensures keeps { KeepsShelf ⟦<WatchedShelf<S, ServerWatch<H>> as Shelf>⟧.stands
            ⟦<WatchedShelf<S, ServerWatch<H>> as Shelf>⟧.is_honest ⟦<WatchedShelf<S, ServerWatch<H>> as Shelf>⟧.has_round shelf.old shelf.new }
    {
        match shelf.fill_cache(alloc) {
            Ok(()) => {
                self.pause = 0;
                log(shelf, self.filled_line());
            }
            Err(_) => {
                self.pause = self.pause.saturating_mul(2).min(LONGEST_PAUSE);
                self.left = self.pause;
            }
        }
    }
}
