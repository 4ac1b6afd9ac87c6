// A store over a host in memory: pages are made, written and given up while savepoints are taken,
// and each image that a crash on the way may leave is opened again.
ghost use Rattle.std.specs.Prelude.{◌≡◌, ◌≤◌, ℕ, false, Some, IfOk};
ghost use Rattle.mdb_bytes.specs.Parts.{KeepsLimits};
ghost use Rattle.mdb_bytes.specs.SlotRecords.{restart_format};
ghost use Rattle.page_store.specs.Steps.{KeepsMaps, OwnAsSaved, is_unwritten};

use crate::area::{image_of, new_host, open, record_of};
use host_tests::MuteHost;
use mdb_bytes::{Pages, RestartRecord, decode_restart_record, encode_restart_record};
use page_store::{PageStore, Pin};
use savepoint::{ConverterWritten, Frozen, Mark, PagesWritten};
use std::alloc::Global;
use std::test::Fail;

// The blocks of the area.
const BLOCKS: u32 = 64;

// The first and the last byte of a page.
#[derive(Clone, Copy, Debug, PartialEq, Eq)]
struct Ends {
    first: u8,
    last: u8,
}

// Those of each of the first pages that lives. No other page lives.
type Pages8 = [Option<Ends>; 8];

// Makes a page.
fn make(store: &mut PageStore, host: &mut MuteHost) -> Result<u32, Fail> {
    if store.spare() == 0 {
        return Err(Fail::from("no spare page"));
    }
    let page = store.view(host).new_page()?;
    Ok(page)
}

// Gives up a page.
fn give_up(
    store: &mut PageStore,
    host: &mut MuteHost,
    now: &mut Pages8,
    page: u32,
) -> Result<(), Fail> {
    let mut view = store.view(host);
    if 8 <= page || !view.lives(page) {
        return Err(Fail::from("a dead page"));
    }
    view.free_page(page)?;
    now[page as usize] = None;
    Ok(())
}

// Writes the first and the last byte of a page.
fn put(
    store: &mut PageStore,
    host: &mut MuteHost,
    now: &mut Pages8,
    page: u32,
    byte: u8,
) -> Result<(), Fail>
    ensures { KeepsMaps store.old store.new }
{
    if store.spare() == 0 {
        return Err(Fail::from("no spare page"));
    }
    let mut view = store.view(host);
    if 8 <= page || !view.lives(page) {
        return Err(Fail::from("a dead page"));
    }
    let bytes = view.write(page)?;
    bytes[0] = byte;
    bytes[8191] = byte;
    now[page as usize] = Some(Ends {
        first: byte,
        last: byte,
    });
    Ok(())
}

// Reads the first and the last byte of a page that may live.
fn ends_of(store: &mut PageStore, host: &mut MuteHost, page: u32) -> Result<Option<Ends>, Fail> {
    let mut view = store.view(host);
    if !view.lives(page) {
        return Ok(None);
    }
    let bytes = view.read(page)?;
    Ok(Some(Ends {
        first: bytes[0],
        last: bytes[8191],
    }))
}

// Reads all pages.
fn pages_of(store: &mut PageStore, host: &mut MuteHost) -> Result<Pages8, Fail> {
    for page in 8..store.blocks() {
        if store.lives(page) {
            return Err(Fail::from("a page too many"));
        }
    }
    let mut pages = [None; 8];
    for page in 0..8u32 {
        pages[page as usize] = ends_of(store, host, page)?;
    }
    Ok(pages)
}

// Begins the next savepoint.
fn begin(store: &mut PageStore, mark: Mark) -> Result<Frozen, Fail>
    ensures frozen { IfOk result (λ state. store.new.maps.frozen_at ≡ Some state.map.savepoint) }
    ensures own { IfOk result (λ state. OwnAsSaved store.new.maps) }
    ensures mark { IfOk result (λ state. state.mark ≡ mark) }
{
    if store.is_saving() || mark.savepoint != store.next() || 200 < mark.savepoint {
        return Err(Fail::from("a savepoint is under way"));
    }
    Ok(store.begin_savepoint(mark))
}

// The record of a savepoint: the last one with other numbers, below 256.
fn next_record(rec: &RestartRecord, slot: u64, mark: Mark, root: u32) -> Result<RestartRecord, Fail>
    requires { KeepsLimits restart_format rec.now }
    ensures keeps { IfOk result (λ next. KeepsLimits restart_format next) }
    ensures root { IfOk result (λ next. next.root ≡ root) }
    ensures slot { IfOk result (λ next. next.slot ≡ slot) }
    ensures mark { IfOk result (λ next. (next.savepoint ≡ mark.savepoint) × (next.commit ≡ mark.commit) × (next.position ≡ mark.position)) }
{
    let mut bytes = [0u8; 8191];
    encode_restart_record(rec, &mut bytes);
    bytes[23] = (slot % 256) as u8;
    bytes[47] = (mark.savepoint % 256) as u8;
    bytes[67] = (root % 256) as u8;
    let Some(next) = decode_restart_record(&bytes) else {
        return Err(Fail::from("no record"));
    };
    if next.slot == slot
        && next.root == root
        && next.savepoint == mark.savepoint
        && next.commit == mark.commit
        && next.position == mark.position
    {
        Ok(next)
    } else {
        Err(Fail::from("another record"))
    }
}

// A savepoint: its number, what stood on the pages as it was begun, the last moment without its
// record, and the first one with it alone.
#[derive(Clone, Copy)]
struct Saved {
    number: u64,
    pages: Pages8,
    before: u64,
    after: u64,
}

// Writes the frozen pages that are left.
fn write_pages(
    store: &mut PageStore,
    host: &mut MuteHost,
    state: Frozen,
) -> Result<PagesWritten, Fail>
    ensures maps { store.new.maps ≡ store.old.maps }
    ensures next { IfOk result (λ s. (s.map ≡ state.map) × (s.mark ≡ state.mark)) }
    ensures written { IfOk result (λ s. (page : ℕ) → is_unwritten store.new page ≡ false) }
{
    let Ok(0) = store.turn_savepoint(host, 100) else {
        return Err(Fail::from("pages are left"));
    };
    match store.pages_done(host, state) {
        Ok(state) => Ok(state),
        Err(_) => Err(Fail::from("a device failed")),
    }
}

// Writes the converter's pages.
fn write_own(
    store: &mut PageStore,
    host: &mut MuteHost,
    state: PagesWritten,
) -> Result<ConverterWritten, Fail>
    requires frozen { store.old.maps.frozen_at ≡ Some state.map.savepoint }
    requires own { OwnAsSaved store.old.maps }
    requires written { (page : ℕ) → is_unwritten store.old page ≡ false }
    ensures frozen { store.new.maps.frozen_at ≡ store.old.maps.frozen_at }
    ensures next { IfOk result (λ s. (s.map ≡ state.map) × (s.mark ≡ state.mark)) }
    ensures written { (page : ℕ) → is_unwritten store.new page ≡ false }
{
    if !store.savepoint_fits() {
        return Err(Fail::from("the converter does not fit"));
    }
    match store.write_converter(host, state) {
        Ok(state) => Ok(state),
        Err(_) => Err(Fail::from("a device failed")),
    }
}

// Takes a savepoint to its end, and answers the last moment without its record, and the first one
// with it alone.
fn finish(
    store: &mut PageStore,
    host: &mut MuteHost,
    state: Frozen,
    mark: Mark,
) -> Result<(u64, u64), Fail>
    requires frozen { store.old.maps.frozen_at ≡ Some state.map.savepoint }
    requires own { OwnAsSaved store.old.maps }
    requires mark { state.mark ≡ mark }
{
    let state = write_pages(store, host, state)?;
    let state = write_own(store, host, state)?;
    let (mut slots, rec) = record_of(host)?;
    if 200 < slots.number {
        return Err(Fail::from("too many savepoints"));
    }
    let next = next_record(&rec, slots.number + 1, mark, state.root())?;
    let before = host.told().now();
    let Ok(state) = store.switch(host, state, &mut slots, &next) else {
        return Err(Fail::from("a device failed"));
    };
    let after = host.told().now();
    let _ = store.release(state);
    Ok((before, after))
}

// Takes a savepoint, with writes of the first two pages between its steps.
fn save(
    store: &mut PageStore,
    host: &mut MuteHost,
    now: &mut Pages8,
    byte: u8,
) -> Result<Saved, Fail> {
    let pages = *now;
    let number = store.next();
    let mark = Mark {
        savepoint: number,
        commit: 0,
        position: 0,
    };
    let state = begin(store, mark)?;
    put(store, host, now, 0, byte)?;
    let _ = store.turn_savepoint(host, 2)?;
    put(store, host, now, 1, byte)?;
    let (before, after) = finish(store, host, state, mark)?;
    Ok(Saved {
        number,
        pages,
        before,
        after,
    })
}

// Whether what a crash leaves holds a savepoint that may be the last one at that moment, and its
// pages.
fn stands(
    alloc: Global,
    host: &MuteHost,
    at: u64,
    pick: u64,
    saved: &[Saved],
) -> Result<bool, Fail> {
    let mut image = image_of(alloc, host, at, pick)?;
    let (mut store, number) = open(alloc, &mut image)?;
    let pages = pages_of(&mut store, &mut image)?;
    let mut stands = false;
    for savepoint in saved {
        if savepoint.number == number {
            stands = savepoint.before < at && savepoint.pages == pages;
        }
        if number < savepoint.number && savepoint.after <= at {
            return Ok(false);
        }
    }
    Ok(stands)
}

// Pins the map of the last savepoint.
fn pin(store: &mut PageStore) -> Result<Pin, Fail> {
    if store.is_pinned() {
        return Err(Fail::from("a map is pinned"));
    }
    Ok(store.pin())
}

// Gives the pinned map up, and answers how many spare pages there are more.
fn unpin(store: &mut PageStore, pin: Pin) -> Result<u32, Fail> {
    if !store.is_pinned() {
        return Err(Fail::from("no map is pinned"));
    }
    let spare = store.spare();
    store.unpin(pin);
    Ok(store.spare().saturating_sub(spare))
}

// How many pages of the pinned map were written after a savepoint.
fn pin_count(store: &PageStore, pin: &Pin, base: u64) -> Result<u32, Fail> {
    if !store.is_pinned() {
        return Err(Fail::from("no map is pinned"));
    }
    Ok(store.pin_count(pin, base))
}

// Reads the pages of the pinned map that were written after a savepoint. None of the others is
// reported.
fn pinned_pages(
    store: &mut PageStore,
    host: &mut MuteHost,
    pin: &Pin,
    base: u64,
) -> Result<Pages8, Fail> {
    let mut pages = [None; 8];
    let mut bytes = [0u8; 8192];
    let mut after = None;
    for _ in 0..8u32 {
        if !store.is_pinned() {
            return Err(Fail::from("no map is pinned"));
        }
        let Some(page) = store.pinned(host, pin, after, base, &mut bytes)? else {
            break;
        };
        if 8 <= page || !store.pin_lives(pin, page) {
            return Err(Fail::from("a page too many"));
        }
        pages[page as usize] = Some(Ends {
            first: bytes[0],
            last: bytes[8191],
        });
        after = Some(page);
    }
    Ok(pages)
}

// A store that is tried, its devices, and what stands on its pages.
#[derive(Drop)]
struct Tried {
    host: MuteHost,
    store: PageStore,
    now: Pages8,
    // The moment at which it was opened, and the savepoint that it was opened on.
    opened: u64,
    number: u64,
}

impl Tried {
    // A store with four pages on a new area.
    fn new(alloc: Global) -> Result<Tried, Fail> {
        let mut host = new_host(alloc, BLOCKS)?;
        let (store, number) = open(alloc, &mut host)?;
        let opened = host.told().now();
        let mut tried = Tried {
            host,
            store,
            now: [None; 8],
            opened,
            number,
        };
        for byte in 10..14u8 {
            tried.make_page(byte)?;
        }
        Ok(tried)
    }

    // Makes a page, and writes its first and its last byte.
    fn make_page(&mut self, byte: u8) -> Result<(), Fail> {
        let page = make(&mut self.store, &mut self.host)?;
        put(&mut self.store, &mut self.host, &mut self.now, page, byte)
    }

    // Takes a savepoint, with writes between its steps.
    fn save(&mut self, byte: u8) -> Result<Saved, Fail> {
        save(&mut self.store, &mut self.host, &mut self.now, byte)
    }

    // Takes three savepoints, and between the last two gives up a page and makes one. Answers the
    // savepoint that there was, and these.
    fn save_thrice(&mut self) -> Result<[Saved; 4], Fail> {
        let first = Saved {
            number: self.number,
            pages: [None; 8],
            before: 0,
            after: 0,
        };
        let second = self.save(110)?;
        let third = self.save(120)?;
        give_up(&mut self.store, &mut self.host, &mut self.now, 3)?;
        self.make_page(50)?;
        let fourth = self.save(130)?;
        Ok([first, second, third, fourth])
    }

    // Whether these pages of the pinned map were written after a savepoint, and so many.
    fn has_pinned(&mut self, pin: &Pin, base: u64, want: Pages8, count: u32) -> Result<bool, Fail> {
        let pages = pinned_pages(&mut self.store, &mut self.host, pin, base)?;
        Ok(pages == want && pin_count(&self.store, pin, base)? == count)
    }

    // Whether a map has these pages, pinned as they stand and read after two more savepoints, and
    // gives back four blocks: those of the first two pages, of a leaf and of the root.
    fn keeps_pinned(&mut self, base: u64, pages: Pages8) -> Result<bool, Fail> {
        let pin = pin(&mut self.store)?;
        let _ = self.save(40)?;
        let _ = self.save(50)?;
        let all = self.has_pinned(&pin, 0, pages, 4)?;
        // The first two pages were written after the savepoint before.
        let later = [pages[0], pages[1], None, None, None, None, None, None];
        let newer = self.has_pinned(&pin, base, later, 2)?;
        Ok(all && newer && unpin(&mut self.store, pin)? == 4)
    }

    // Whether what a crash leaves at each moment holds a savepoint that may then be the last one.
    fn stands_throughout(&self, alloc: Global, saved: &[Saved]) -> Result<bool, Fail> {
        for at in self.opened..=self.host.told().now() {
            for pick in [0, 1, 0x5555_5555_5555_5555, 0xAAAA_AAAA_AAAA_AAAA] {
                if !stands(alloc, &self.host, at, pick, saved)? {
                    return Ok(false);
                }
            }
        }
        Ok(true)
    }
}

#[test]
fn each_stop_leaves_the_last_savepoint(rt: HostRuntime) -> Result<(), Fail> {
    let mut tried = Tried::new(rt.alloc())?;
    let saved = tried.save_thrice()?;
    assert_eq!(rt; pages_of(&mut tried.store, &mut tried.host)?, tried.now);
    assert_eq!(rt; saved[3].number, tried.number.saturating_add(3));
    assert!(rt; tried.stands_throughout(rt.alloc(), &saved)?);
    Ok(())
}

#[test]
fn a_pin_reads_its_savepoint_while_later_ones_come(rt: HostRuntime) -> Result<(), Fail> {
    let mut tried = Tried::new(rt.alloc())?;
    let first = tried.save(20)?;
    let second = tried.save(30)?;
    assert!(rt; tried.keeps_pinned(first.number, second.pages)?);
    Ok(())
}
