//! A cache of pages in front of a store. A changed page is saved in the store when it leaves the cache.
ghost use Rattle.std.specs.Prelude.{◌≡◌, ◌≤◌, ◌-◌, ℕ, None, false, if◌then◌else◌, length, nat_eq, IfOk};
ghost use Rattle.std.specs.{Prelude.{IfSome, IsFalse, MatchResult, OnErr, OnOk}, Map.lookup};
ghost use Rattle.std.specs.Option.{option_map};
ghost use Rattle.hashlink.specs.{Entries.IsEntries, Cached.{entries_of, state_of}, Evicted.evicted_by};
ghost use Rattle.hashlink_uses.specs.{declared.pages.Page.Page, Contents.{IsSound, Pages, content}};

use hashlink::LruCache;
use std::alloc::Global;
use std::marker::Model;

/// A store of pages, each under its number.
pub trait Store<V> {
    /// Why a page cannot be read or written.
    type Error: Drop;

    ghost page: { Self → ℕ → V };

    /// Returns a page.
    fn load(&self, number: u64) -> Result<V, Self::Error>
        ensures { IfOk result (λ value. value ≡ Self.page self.now number) };

    /// Stores a page. If this fails, the page may have any content afterwards. The others do not change.
    fn save(&mut self, number: u64, value: V) -> Result<(), Self::Error>
        ensures saved { OnOk result (Self.page self.new number ≡ value) }
        ensures others { (other : ℕ) → IsFalse (nat_eq number other)
            → Self.page self.new other ≡ Self.page self.old other };
}

/// A page in the cache, and whether it still has to be saved in the store.
#[derive(Drop)]
pub struct Page<V> {
    value: V,
    is_changed: bool,
}

/// Why a page cannot be read or written: memory ran out, or the store failed.
#[derive(Debug, PartialEq, Eq, Drop)]
pub enum PageError<E> {
    Memory,
    Store(E),
}

/// A store with a cache in front of it. A contract sees the pages in the cache, how many it may hold, and the
/// store. `content` is what is read under each number: the value last written there.
#[derive(Drop)]
pub struct PageCache<V, T: Store<V>> {
    pages: LruCache<u64, Page<V>>,
    store: T,
}

impl<V, T: Store<V>> Model for PageCache<V, T> {
    ghost Value = { Pages V T };

    ghost view = { λ c. record {
      held = entries_of c.pages;
      capacity = (state_of c.pages).cap;
      store = c.store;
    } };

    ghost invariant = { λ c. IsSound (entries_of c.pages) (state_of c.pages).cap (T.page c.store) };
}

impl<V: Copy, T: Store<V>> PageCache<V, T> {
    /// Puts a cache of this many pages in front of a store.
    pub fn new(alloc: Global, capacity: usize, store: T) -> Self
        requires { 1 ≤ capacity }
        ensures { (n : ℕ) → content T.page result n ≡ T.page store n }
    {
        PageCache {
            pages: LruCache::new(alloc, capacity),
            store,
        }
    }

    /// Returns a page, which is then the most recently used one. It fails only if the store fails to load it,
    /// and the content does not change.
    pub fn read(&mut self, number: u64) -> Result<V, T::Error>
        ensures read { IfOk result (λ value. value ≡ content T.page self.old number) }
        ensures unchanged { (n : ℕ) → content T.page self.new n ≡ content T.page self.old n }
    {
        if let Some(value) = self.find(number) {
            return Ok(value);
        }
        let value = self.store.load(number)?;
        let page = Page {
            value,
            is_changed: false,
        };
        let _kept = self.keep(number, page);
        Ok(value)
    }

    /// Writes a page, which is saved in the store when it leaves the cache. If there is no memory for it, or
    /// the store fails to save the page that has to leave, the content does not change.
    pub fn write(&mut self, number: u64, value: V) -> Result<(), PageError<T::Error>>
        ensures written { OnOk result ((n : ℕ) → content T.page self.new n
            ≡ if nat_eq number n then value else content T.page self.old n) }
        ensures failed { OnErr result ((n : ℕ) → content T.page self.new n ≡ content T.page self.old n) }
    {
        let page = Page {
            value,
            is_changed: true,
        };
        self.keep(number, page)
    }

    /// Saves every changed page and returns the store, or the cache and the store's error.
    pub fn close(mut self) -> Result<T, (Self, T::Error)>
        ensures { MatchResult result (λ store. (n : ℕ) → T.page store n ≡ content T.page self n)
            (λ back. (n : ℕ) → content T.page back.0 n ≡ content T.page self n) }
    {
        while !self.pages.is_empty() {
            if let Err(error) = self.save_first() {
                return Err((self, error));
            }
        }
        Ok(self.store)
    }

    /// Returns the value of a page in the cache, which is then the most recently used one.
    fn find(&mut self, number: u64) -> Option<V>
        ensures found { result ≡ option_map (λ p. p.value) (lookup (nat_eq number) self.old.held) }
        ensures unchanged { (n : ℕ) → lookup (nat_eq n) self.new.held ≡ lookup (nat_eq n) self.old.held }
        ensures store { self.new.store ≡ self.old.store }
    {
        self.pages.get(&number).map(|page| page.value)
    }

    /// Puts a page into the cache. If another page has to leave for it, that page is saved first. A page that
    /// is not changed must not be in the cache, and has to be as the store has it.
    fn keep(&mut self, number: u64, page: Page<V>) -> Result<(), PageError<T::Error>>
        requires stored { page.is_changed ≡ false → (lookup (nat_eq number) self.old.held ≡ None)
            × (page.value ≡ T.page self.old.store number) }
        ensures kept { OnOk result ((n : ℕ) → content T.page self.new n
            ≡ if nat_eq number n then page.value else content T.page self.old n) }
        ensures failed { OnErr result ((n : ℕ) → content T.page self.new n ≡ content T.page self.old n) }
    {
        if let Err(error) = self.save_leaving(number) {
            return Err(PageError::Store(error));
        }
        let Ok(_) = self.pages.insert(number, page) else {
            return Err(PageError::Memory);
        };
        Ok(())
    }

    /// Saves the page that an insert of this one would evict.
    fn save_leaving(&mut self, number: u64) -> Result<(), T::Error>
        ensures distinct { IsEntries nat_eq self.new.held }
        ensures pages { (self.new.held ≡ self.old.held) × (self.new.capacity ≡ self.old.capacity) }
        ensures unchanged { (n : ℕ) → content T.page self.new n ≡ content T.page self.old n }
        ensures saved { OnOk result (IfSome (evicted_by (nat_eq number) self.old.held self.old.capacity)
            (λ e. T.page self.new.store e.0 ≡ content T.page self.old e.0)) }
    {
        match self.pages.evicted_by(&number) {
            Some((leaving, _)) => {
                let leaving = *leaving;
                self.save(leaving)
            }
            None => Ok(()),
        }
    }

    /// Saves the least recently used page, and then removes it.
    fn save_first(&mut self) -> Result<(), T::Error>
        ensures left { OnOk result (length self.new.held ≡ length self.old.held - 1) }
        ensures unchanged { (n : ℕ) → content T.page self.new n ≡ content T.page self.old n }
    {
        let Some((first, _)) = self.pages.peek_lru() else {
            return Ok(());
        };
        let first = *first;
        self.save(first)?;
        self.pages.remove_lru();
        Ok(())
    }

    /// Saves a page, if it is in the cache and changed.
    fn save(&mut self, number: u64) -> Result<(), T::Error>
        ensures distinct { IsEntries nat_eq self.new.held }
        ensures pages { (self.new.held ≡ self.old.held) × (self.new.capacity ≡ self.old.capacity) }
        ensures unchanged { (n : ℕ) → content T.page self.new n ≡ content T.page self.old n }
        ensures saved { OnOk result (T.page self.new.store number ≡ content T.page self.old number) }
    {
        match self.pages.peek(&number) {
            Some(page) if page.is_changed => {
                let value = page.value;
                self.store.save(number, value)
            }
            _ => Ok(()),
        }
    }
}
