//! A publisher in one thread, and eight sessions in others, which read all the while.

ghost use Rattle.std.specs.Prelude.{◌≡◌, ◌≤◌, [], length};

use crate::entries::entry_of;
use plum_base::{Answers, NoMemory, Tenths};
use plum_snap::{Doors, Publisher, Session, open};
use plum_trials_given::sites_of;
use std::alloc::Global;
use std::sync::Wait;
use std::sync::atomic::AtomicBool;
use std::sync::atomic::Ordering::SeqCst;
use std::test::*;
use std::thread::{Threads, for_each_mut, join_mut};

const ENTRIES: u32 = 20_000;

/// How many entries are published at once.
const PIECE: u32 = 64;

const STATIONS: u16 = 20;

/// The targets, the area of each, and where they are, in metres.
const TARGETS: [(&str, &str, i32); 16] = [
    ("t0", "a", 0),
    ("t1", "b", 6_000),
    ("t2", "c", 12_000),
    ("t3", "d", 18_000),
    ("t4", "e", 24_000),
    ("t5", "f", 30_000),
    ("t6", "g", 36_000),
    ("t7", "h", 42_000),
    ("t8", "a", 48_000),
    ("t9", "b", 54_000),
    ("t10", "c", 60_000),
    ("t11", "d", 66_000),
    ("t12", "e", 72_000),
    ("t13", "f", 78_000),
    ("t14", "g", 84_000),
    ("t15", "h", 130_000),
];

/// What the n-th entry says, from 0, which is of station n modulo 20.
fn value_at(n: u32) -> Option<Tenths> {
    if n % 7 == 3 {
        None
    } else {
        Some(Tenths((n % 101) as i16))
    }
}

/// Appends all entries, and publishes each piece.
fn publish_pieces<R: Wait>(rt: &R, alloc: Global, publisher: &mut Publisher) -> Result<(), NoMemory>
    requires { publisher.old.appended ≡ [] }
{
    for n in 0..ENTRIES {
        let station = (n % STATIONS as u32) as u16;
        publisher.append(entry_of(alloc, station, value_at(n))?)?;
        if n % PIECE == PIECE - 1 {
            publisher.publish(rt);
        }
    }
    publisher.publish(rt);
    Ok(())
}

/// The same, and tells of the end.
fn publish_all<R: Wait>(
    rt: &R,
    alloc: Global,
    publisher: &mut Publisher,
    ended: &AtomicBool,
) -> Result<(), NoMemory>
    requires { publisher.old.appended ≡ [] }
{
    let published = publish_pieces(rt, alloc, publisher);
    ended.store(true, SeqCst);
    published
}

/// A front, and what was read there.
#[derive(Drop)]
struct Seen {
    front: u64,
    answers: Answers,
}

/// A session, and what it has read, each time that there was more.
#[derive(Drop)]
struct Watcher {
    session: Session,
    seen: Vec<Seen>,
    /// Whether a read was shut out, a front fell, or memory was refused.
    failed: bool,
}

impl Watcher {
    fn front(&self) -> u64 {
        match self.seen.last() {
            Some(seen) => seen.front,
            None => 0,
        }
    }

    /// Reads once, and notes what is new. None where it failed.
    fn look(&mut self) -> Option<()> {
        let last = self.front();
        let reading = self.session.read().ok()?;
        if reading.front < last {
            return None;
        }
        if reading.front > last {
            let front = reading.front;
            let answers = reading.answers.copy().ok()?;
            self.seen.push(Seen { front, answers }).ok()?;
        }
        Some(())
    }

    /// Reads until all is published.
    fn watch<R: Wait>(&mut self, rt: &R, ended: &AtomicBool) {
        for _ in rt.forever() {
            // Asked before the read: what is read after the end is all.
            let last = ended.load(SeqCst);
            self.failed = self.look().is_none();
            if last || self.failed {
                break;
            }
        }
    }
}

/// The greatest of what stations within 30 km show.
fn plain_prediction(shown: &[Option<Tenths>; 20], place: i32) -> Option<Tenths> {
    let mut greatest = None;
    for (station, value) in shown.iter().enumerate() {
        if (station as i32 * 5000).abs_diff(place) <= 30_000 {
            greatest = greatest.max(*value);
        }
    }
    greatest
}

/// Whether each answer is the plain prediction over its front, for the two targets of the area.
fn agrees(seen: &[Seen], first: i32, second: i32) -> bool {
    let mut shown = [None; 20];
    let mut applied = 0;
    for reading in seen {
        let Ok(front) = u32::try_from(reading.front) else {
            return false;
        };
        for n in applied..front {
            shown[(n % 20) as usize] = value_at(n);
        }
        applied = front;
        let wanted = [
            plain_prediction(&shown, first),
            plain_prediction(&shown, second),
        ];
        if reading.answers.as_slice() != wanted.as_slice() {
            return false;
        }
    }
    true
}

/// One thread publishes, and one for each session reads.
fn side_by_side<R: Threads + Wait + Sync>(
    rt: &R,
    alloc: Global,
    publisher: &mut Publisher,
    sessions: Vec<Session>,
) -> Result<Vec<Watcher>, NoMemory>
    requires { publisher.old.appended ≡ [] }
{
    let mut watchers = Vec::new(alloc);
    for session in sessions {
        watchers.push(Watcher {
            session,
            seen: Vec::new(alloc),
            failed: false,
        })?;
    }
    let ended = AtomicBool::new(false);
    let watched = watchers.as_mut_slice();
    let (published, _) = join_mut(
        rt,
        &mut || publish_all(rt, alloc, publisher, &ended),
        &mut || for_each_mut(
            rt,
            watched,
            8,
            &|_, watcher: &mut Watcher| watcher.watch(rt, &ended),
        ),
    );
    published?;
    Ok(watchers)
}

#[test]
fn eight_sessions_read_beside_the_publisher(rt: HostRuntime) -> Result<(), Fail> {
    let alloc = rt.alloc();
    let sites = sites_of(alloc, STATIONS, 5000, &TARGETS)?;
    let mut doors = Doors::new();
    let (mut publisher, sessions) = open(&rt, alloc, &sites, &mut doors).ok().ok_or("it opens")?;
    let found = side_by_side(&rt, alloc, &mut publisher, sessions);
    publisher.end(&rt);
    let watchers = found?;
    assert_eq!(rt; watchers.len(), 8);
    for (a, watcher) in watchers.iter().enumerate() {
        assert!(rt; !watcher.failed, "{a}");
        assert_eq!(rt; watcher.front(), ENTRIES as u64);
        let (first, second) = (TARGETS[a].2, TARGETS[a + 8].2);
        assert!(rt; agrees(watcher.seen.as_slice(), first, second), "{a}");
    }
    Ok(())
}
