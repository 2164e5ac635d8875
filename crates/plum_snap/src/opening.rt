//! Opening: a publisher and its sessions, of one list.

ghost use Rattle.std.specs.Prelude.{◌≡◌, [], drop, true, IfOk};
ghost use Rattle.left_right.specs.Sides as sides;
ghost use Rattle.plum_board.specs.Board.{new_board};
ghost use Rattle.plum_snap.specs.Publisher.{new_publisher};
ghost use Rattle.plum_snap.specs.Refused.{CountsRefused};
ghost use Rattle.plum_snap.specs.Rule.{IsAsBefore, saw};
ghost use Rattle.plum_snap.specs.Sessions.{new_session, new_sessions};
ghost use Rattle.plum_snap.specs.Snapshots.{IsRight};

use crate::doors::Doors;
use crate::ends::{Ink, publish};
use crate::front::Front;
use crate::history::begin;
use crate::limit::Limit;
use crate::publisher::Publisher;
use crate::receipt::Receipt;
use crate::session::Session;
use crate::snapshot::Snapshot;
use plum_base::{AreaNo, Name, NoMemory, Sites};
use plum_board::Board;
use std::alloc::Global;
use std::sync::Wait;

/// Why nothing was opened.
#[derive(Clone, Copy, Debug, PartialEq, Eq)]
pub enum OpenFault {
    /// A place of a reader was refused.
    NoPlace,
    /// An allocation was refused.
    NoMemory,
}

/// What the empty list shows.
fn blank(alloc: Global, sites: &Sites, front: &Front) -> Result<Snapshot, NoMemory>
    requires { front.now.entries ≡ [] }
    ensures shown { IfOk result (λ shown. shown ≡ record {
      board = new_board sites.now;
      front = front.now;
    }) }
    ensures right { IfOk result IsRight }
{
    Ok(Snapshot {
        board: Board::new(alloc, sites)?,
        front: front.again(),
    })
}

/// A writer that shows the empty list, and knows it.
fn writer<R: Wait>(rt: &R, alloc: Global, sites: &Sites, front: &Front) -> Result<Ink, NoMemory>
    requires { front.now.entries ≡ [] }
    ensures shown { IfOk result (λ ink. (ink.desk.shown.value ≡ record {
      board = new_board sites.now;
      front = front.now;
    }) × IsRight ink.desk.shown.value) }
    ensures knows { IfOk result (λ ink. sides.view ink.desk.place ≡ saw ink.desk.shown.value) }
    ensures none { IfOk result (λ ink. drop ink.behind ink.log.items ≡ []) }
{
    let first = blank(alloc, sites, front)?;
    let second = blank(alloc, sites, front)?;
    // Where there is no area, room for one reader is asked for all the same.
    let places = (sites.areas() as usize).max(1);
    Ok(publish(rt, Ink::new(alloc, first, second, places)?))
}

/// A session for an area. It has seen nothing.
fn session(
    alloc: Global,
    sites: &Sites,
    area: Name,
    doors: &mut Doors,
    writer: &mut Ink,
    limit: &Limit,
    front: &Receipt,
) -> Result<Session, OpenFault>
    requires limit { limit.now.book ≡ front.now.publisher.limit }
    requires empty { front.now.entries ≡ [] }
    requires known { (sides.view writer.old.desk.place).known ≡ true }
    requires one { (sides.view writer.old.desk.place).seen.front.list
        ≡ front.now.publisher.list }
    requires sites { (sides.view writer.old.desk.place).seen.board.sites ≡ sites.now }
    ensures session { IfOk result (λ session.
        session ≡ new_session front.now.publisher sites.now area) }
    ensures place { CountsRefused result doors.old doors.new }
    ensures knows { sides.view writer.new.desk.place ≡ sides.view writer.old.desk.place }
    ensures writer { IsAsBefore writer.old writer.new }
{
    let shared = limit.shared().map_err(|_| OpenFault::NoMemory)?;
    let Some(entrance) = doors.entrance(writer, shared, front) else {
        return Err(OpenFault::NoPlace);
    };
    match Session::new(alloc, sites, area, entrance) {
        Ok(session) => Ok(session),
        Err(NoMemory) => Err(OpenFault::NoMemory),
    }
}

/// A session for each area, in order.
fn sessions(
    alloc: Global,
    sites: &Sites,
    doors: &mut Doors,
    writer: &mut Ink,
    limit: &Limit,
    front: &Receipt,
) -> Result<Vec<Session>, OpenFault>
    requires limit { limit.now.book ≡ front.now.publisher.limit }
    requires empty { front.now.entries ≡ [] }
    requires known { (sides.view writer.old.desk.place).known ≡ true }
    requires one { (sides.view writer.old.desk.place).seen.front.list
        ≡ front.now.publisher.list }
    requires sites { (sides.view writer.old.desk.place).seen.board.sites ≡ sites.now }
    ensures sessions { IfOk result (λ v.
        v.items ≡ new_sessions front.now.publisher sites.now) }
    ensures place { CountsRefused result doors.old doors.new }
    ensures writer { IsAsBefore writer.old writer.new }
{
    let mut sessions = Vec::new(alloc);
    for a in 0..sites.areas() {
        let area = sites.area_name(AreaNo(a));
        let session = session(alloc, sites, area, doors, writer, limit, front)?;
        sessions.push(session).map_err(|_| OpenFault::NoMemory)?;
    }
    Ok(sessions)
}

/// A publisher, and a session for each area, in order. Nothing is appended, published or seen.
pub fn open<R: Wait>(
    rt: &R,
    alloc: Global,
    sites: &Sites,
    doors: &mut Doors,
) -> Result<(Publisher, Vec<Session>), OpenFault>
    ensures publisher { IfOk result (λ opened. opened.0 ≡ new_publisher opened.0.publisher) }
    ensures sessions { IfOk result (λ opened.
        opened.1.items ≡ new_sessions opened.0.publisher sites.now) }
    ensures place { CountsRefused result doors.old doors.new }
{
    let (head, front) = begin();
    let limit = Limit::begin(alloc).map_err(|_| OpenFault::NoMemory)?;
    let first = Receipt::new(front.again(), limit.marks());
    let mut ink = writer(rt, alloc, sites, &front).map_err(|_| OpenFault::NoMemory)?;
    match sessions(alloc, sites, doors, &mut ink, &limit, &first) {
        Ok(sessions) => Ok((Publisher::new(head, front, limit, ink), sessions)),
        Err(fault) => {
            ink.take(rt);
            Err(fault)
        }
    }
}
