//! What is kept of each gateway's page. A thread for each gateway fetches its page again and again,
//! so nobody who asks waits for a gateway.
ghost use Rattle.std.specs.Prelude.{◌≡◌, ◌<◌, List, length, map, IfOk, MatchResult};
ghost use Rattle.status_reading.specs.Faults.{IsFaultOf};
ghost use Rattle.status_reading.specs.Rows.{PageView};
ghost use Rattle.status_memory.specs.History.{IsHistoryOf};
ghost use Rattle.page_watching.specs.Watching.{IsObserved, LeavesHistory, text_of, place_of, seen_place, last_view, memory_view, IsPageIn, IsFetchOf};

use crate::causes::NoPage;
use crate::places::Place;
use page_fetching::{Fetched, fetch};
use status_memory::{Fetch, History, Kept, Memory, Page, ShownResult, Since, StateChange};
use status_reading::{PageText, ReadFault, read_status_page};
use std::alloc::{AllocError, Global};
use std::net::{Net, TcpListener, TcpStream};
use std::sync::{Arc, Mutex, Wait};
use std::thread;
use std::thread::Threads;
use std::time::{Clock, Duration, SystemTime};

/// A page as it is kept.
#[derive(Drop)]
pub struct Contents {
    pub text: PageText,
    /// Since when each of its objects has the state by which it is shown, in the order of its rows.
    pub since: Vec<Since>,
    /// Of each of its objects the earlier result by which it is shown, if it is; empty where none is.
    pub held: Vec<Option<ShownResult>>,
    /// The last changes of states, the oldest first.
    pub changes: Vec<StateChange>,
}

/// The same, which stays as long as anybody reads it.
pub type Shared = Arc<Contents, Global>;

/// A gateway, and what is kept of it.
#[derive(Drop)]
pub struct Watched<'a> {
    place: Place<'a>,
    memory: Mutex<Memory<Shared, NoPage>>,
    // Taken by the thread that fetches alone.
    history: Mutex<History>,
}

/// A gateway, and what was kept of it at some moment.
#[derive(Drop)]
pub struct Seen<'a> {
    pub place: Place<'a>,
    pub memory: Memory<Shared, NoPage>,
}

/// The gateways at these places.
#[derive(Drop)]
pub struct Watch<'a> {
    pub places: &'a [Place<'a>],
    watched: Vec<Watched<'a>>,
    ghost kept: { map place_of watched.items ≡ places.now },
}

/// The system's clock in seconds since 1970; 0 where it can't be read.
pub fn clock<R: Clock>(rt: &R) -> u32 {
    let Ok(now) = SystemTime::now(rt) else {
        return 0;
    };
    match now.duration_since(SystemTime::UNIX_EPOCH) {
        Ok(since) => u32::try_from(since.as_secs()).unwrap_or(u32::MAX),
        Err(_) => 0,
    }
}

// The page that a text is, as it is kept. The history takes it in.
fn page_in(alloc: Global, history: &mut History, text: Vec<u8>) -> Result<Page<Shared>, ReadFault>
    ensures page { MatchResult result (IsPageIn text.items) (IsFaultOf text.items) }
    ensures history { (before : List PageView) → IsHistoryOf before history.old
        → IsObserved before text.items history.new result }
{
    let page = read_status_page(alloc, text.as_slice())?;
    history.observe(alloc, &page)?;
    let moment = page.moment;
    let objects = page.objects.len();
    let closing = page.closing.is_some();
    drop(page);
    let is_other = history.is_other();
    let since = history.since(alloc)?;
    let held = history.held(alloc)?;
    let changes = history.changes(alloc)?;
    let contents = Contents {
        text: PageText { bytes: text },
        since,
        held,
        changes,
    };
    match Arc::new(alloc, contents) {
        Ok(text) => Ok(Page {
            text,
            moment,
            objects,
            closing,
            is_other,
        }),
        Err(_) => Err(ReadFault::OutOfMemory),
    }
}

// What was fetched, as it is kept.
fn fetch_of(
    alloc: Global,
    history: &mut History,
    fetched: Fetched,
    moment: u64,
) -> Fetch<Shared, NoPage>
    ensures fetch { IsFetchOf (text_of fetched) moment result }
    ensures history { (before : List PageView) → IsHistoryOf before history.old
        → LeavesHistory before (text_of fetched) history.new result }
{
    match fetched {
        Ok(text) => match page_in(alloc, history, text) {
            Ok(page) => Fetch {
                moment,
                page: Ok(page),
            },
            Err(fault) => Fetch {
                moment,
                page: Err(NoPage::Read(fault)),
            },
        },
        Err(fault) => Fetch {
            moment,
            page: Err(NoPage::Fetch(fault)),
        },
    }
}

// The last page once more.
fn last_again(last: &Option<Kept<Shared>>) -> Result<Option<Kept<Shared>>, AllocError>
    ensures { IfOk result (λ again. last_view again ≡ last_view last.now) }
{
    let Some(kept) = last else {
        return Ok(None);
    };
    let page = &kept.page;
    let text = Arc::try_clone(&page.text)?;
    Ok(Some(Kept {
        page: Page {
            text,
            moment: page.moment,
            objects: page.objects,
            closing: page.closing,
            is_other: page.is_other,
        },
        moment: kept.moment,
    }))
}

// The same memory once more.
fn memory_again(memory: &Memory<Shared, NoPage>) -> Result<Memory<Shared, NoPage>, AllocError>
    ensures { IfOk result (λ again. memory_view again ≡ memory_view memory.now) }
{
    Ok(Memory {
        last: last_again(&memory.last)?,
        fault: memory.fault,
        most: memory.most,
        agreed: memory.agreed,
        other: memory.other,
    })
}

impl<'a> Watched<'a> {
    fn new(alloc: Global, place: Place<'a>) -> Result<Watched<'a>, AllocError>
        ensures { IfOk result (λ watched. watched.place ≡ place.entry) }
    {
        Ok(Watched {
            place,
            memory: Mutex::new(Memory::new()),
            history: Mutex::new(History::new(alloc)?),
        })
    }

    fn seen<R: Wait>(&self, rt: &R) -> Result<Seen<'a>, AllocError>
        ensures { IfOk result (λ seen. seen.place ≡ self.now.place) }
    {
        let memory = memory_again(&self.memory.lock(rt))?;
        Ok(Seen {
            place: self.place,
            memory,
        })
    }

    // Fetches the page, and keeps what that gave.
    fn fetch<R: Net<Listener = TcpListener, Stream = TcpStream> + Clock + Wait>(
        &self,
        rt: &R,
        alloc: Global,
    ) {
        let fetched = fetch(rt, alloc, self.place.address);
        let now = u64::from(clock(rt));
        let fetch = fetch_of(alloc, &mut self.history.lock(rt), fetched, now);
        self.memory.lock(rt).observe(fetch);
    }

    /// Fetches the page for ever, this many seconds after each fetch.
    pub fn fetch_always<R: Net<Listener = TcpListener, Stream = TcpStream> + Clock + Wait>(
        &self,
        rt: &R,
        alloc: Global,
        every: u32,
    ) {
        for _ in rt.forever() {
            let _ = thread::sleep(rt, Duration::from_secs(u64::from(every)));
            self.fetch(rt, alloc);
        }
    }
}

impl<'a> Watch<'a> {
    /// The gateways at these places; nothing is kept of them yet. The only error is out of memory.
    pub fn new(alloc: Global, places: &'a [Place<'a>]) -> Result<Watch<'a>, AllocError>
        ensures { IfOk result (λ watch. watch.places.now ≡ places.now) }
    {
        let mut watched = Vec::new(alloc);
        for place in places {
            watched.push(Watched::new(alloc, *place)?)?;
        }
        Ok(Watch { places, watched })
    }

    pub fn watched(&self) -> &[Watched<'a>] {
        self.watched.as_slice()
    }

    /// What is kept of each gateway now. The only error is out of memory.
    pub fn seen<R: Wait>(&self, rt: &R, alloc: Global) -> Result<Vec<Seen<'a>>, AllocError>
        ensures { IfOk result (λ seen. map seen_place seen.items ≡ self.now.places.now) }
    {
        let mut seen = Vec::new(alloc);
        for watched in self.watched.as_slice() {
            seen.push(watched.seen(rt)?)?;
        }
        Ok(seen)
    }

    /// Fetches the pages of all gateways once, side by side; one after another where no thread can
    /// be started. The only error is out of memory.
    pub fn fetch_all<
        R: Net<Listener = TcpListener, Stream = TcpStream> + Clock + Threads + Wait + Sync,
    >(&self, rt: &R, alloc: Global) -> Result<(), AllocError> {
        let watched = self.watched.as_slice();
        let fetch_at = |index: usize|
            requires { index < length watched.now }
        { watched[index].fetch(rt, alloc) };
        thread::map_indices(rt, alloc, watched.len(), &fetch_at)?;
        Ok(())
    }

    /// Fetches the pages of the gateways from this index on, one after another, for ever, with this
    /// many seconds between two rounds.
    pub fn fetch_from<R: Net<Listener = TcpListener, Stream = TcpStream> + Clock + Wait>(
        &self,
        rt: &R,
        alloc: Global,
        index: usize,
        every: u32,
    ) {
        for _ in rt.forever() {
            let _ = thread::sleep(rt, Duration::from_secs(u64::from(every)));
            for watched in self.watched.iter().skip(index) {
                watched.fetch(rt, alloc);
            }
        }
    }
}
