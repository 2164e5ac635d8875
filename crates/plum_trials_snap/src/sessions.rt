//! A publisher and its sessions, in one thread.

ghost use Rattle.std.specs.Prelude.{◌≡◌, ◌<◌, ◌≤◌, ◌+◌, ◌^◌, [], length, IfSome};
ghost use mathlib.Core.List.{IsPrefix};

use crate::entries::entry_of;
use plum_base::{NoMemory, Sites, Tenths};
use plum_snap::{Doors, Publisher, Session, open};
use plum_trials_given::sites_of;
use std::alloc::Global;
use std::sync::Wait;
use std::test::*;

/// The front of a reading, and its first answer.
type Seen = (u64, Option<Tenths>);

/// A publisher with its last session and the one before, where there are any.
type Opened = (Publisher, Option<Session>, Option<Session>);

fn opened<R: Wait>(rt: &R, alloc: Global, sites: &Sites, doors: &mut Doors) -> Option<Opened>
    ensures new { IfSome result (λ r. r.0.appended ≡ []) }
    ensures last { IfSome result (λ r. IfSome r.1 (λ s. s.publisher ≡ r.0.publisher)) }
    ensures before { IfSome result (λ r. IfSome r.2 (λ s. s.publisher ≡ r.0.publisher)) }
{
    match open(rt, alloc, sites, doors) {
        Ok((publisher, mut sessions)) => {
            let last = sessions.pop();
            let before = sessions.pop();
            Some((publisher, last, before))
        }
        Err(_) => None,
    }
}

/// What is read: the front, and the first answer.
fn read(session: &mut Session) -> Option<Seen>
    ensures publisher { session.new.publisher ≡ session.old.publisher }
    ensures front { IfSome result (λ seen. seen.0 ≡ length session.new.seen) }
    ensures goes_on { IfSome result (λ _. IsPrefix session.old.seen session.new.seen) }
{
    match session.read() {
        Ok(reading) => {
            let answer = reading.answers.as_slice().first().copied()?;
            Some((reading.front, answer))
        }
        Err(_) => None,
    }
}

/// What is read once the session has learned a receipt: all that is published, and no more. Only
/// clauses of the published board show it.
fn read_all(publisher: &mut Publisher, session: &mut Session) -> Option<Seen>
    requires { session.old.publisher ≡ publisher.old.publisher }
    ensures all { IfSome result (λ _. session.new.seen ≡ publisher.old.published) }
    ensures front { IfSome result (λ seen. seen.0 ≡ length publisher.old.published) }
    ensures publisher { publisher.new ≡ publisher.old }
{
    session.learn(publisher.receipt());
    publisher.shows_what_was_seen(session);
    let seen = read(session)?;
    publisher.shows_what_was_seen(session);
    Some(seen)
}

/// Appends entries of station 0 that show these values.
fn append(alloc: Global, publisher: &mut Publisher, values: &[i16]) -> Result<(), NoMemory>
    requires room { length publisher.old.appended + length values.now < 1000 }
    ensures publisher { publisher.new.publisher ≡ publisher.old.publisher }
    ensures appended { length publisher.new.appended
        ≤ length publisher.old.appended + length values.now }
{
    for value in values {
        publisher.append(entry_of(alloc, 0, Some(Tenths(*value)))?)?;
    }
    Ok(())
}

/// What is read at first, after an append, and once the receipt of the publish was learned; what
/// was pending, and what the receipt counts.
fn published<R: Wait>(
    rt: &R,
    alloc: Global,
    publisher: &mut Publisher,
    session: Option<Session>,
) -> Option<(Seen, Seen, u64, u64, Seen, u64)>
    requires one { IfSome session (λ s. s.publisher ≡ publisher.old.publisher) }
    requires new { publisher.old.appended ≡ [] }
{
    let mut session = session?;
    let first = read(&mut session)?;
    append(alloc, publisher, &[21]).ok()?;
    let second = read(&mut session)?;
    let pending = publisher.pending();
    publisher.publish(rt);
    let receipt = publisher.receipt();
    let count = receipt.count();
    session.learn(receipt);
    let third = read(&mut session)?;
    Some((first, second, pending, count, third, session.shut()))
}

#[test]
fn session_sees_what_is_published(rt: HostRuntime) -> Result<(), Fail> {
    let alloc = rt.alloc();
    let sites = sites_of(alloc, 1, 0, &[("t1", "a", 0)])?;
    let mut doors = Doors::new();
    let (mut publisher, session, _) = opened(&rt, alloc, &sites, &mut doors).ok_or("it opens")?;
    let found = published(&rt, alloc, &mut publisher, session);
    publisher.end(&rt);
    let wanted = ((0, None), (0, None), 1, 1, (1, Some(Tenths(21))), 0);
    assert_eq!(rt; found, Some(wanted));
    assert_eq!(rt; doors.refused(), 0);
    Ok(())
}

/// A receipt of three is learned before the session reads for the first time, while a fourth entry
/// is pending. What is read, and once more after it is published.
fn learned<R: Wait>(
    rt: &R,
    alloc: Global,
    publisher: &mut Publisher,
    session: Option<Session>,
) -> Option<(Seen, Seen)>
    requires one { IfSome session (λ s. s.publisher ≡ publisher.old.publisher) }
    requires new { publisher.old.appended ≡ [] }
{
    let mut session = session?;
    append(alloc, publisher, &[21, 22, 20]).ok()?;
    publisher.publish(rt);
    session.learn(publisher.receipt());
    append(alloc, publisher, &[23]).ok()?;
    let first = read(&mut session)?;
    publisher.publish(rt);
    Some((first, read(&mut session)?))
}

#[test]
fn session_that_learned_three_reads_no_fewer(rt: HostRuntime) -> Result<(), Fail> {
    let alloc = rt.alloc();
    let sites = sites_of(alloc, 1, 0, &[("t1", "a", 0)])?;
    let mut doors = Doors::new();
    let (mut publisher, session, _) = opened(&rt, alloc, &sites, &mut doors).ok_or("it opens")?;
    let found = learned(&rt, alloc, &mut publisher, session);
    publisher.end(&rt);
    assert_eq!(rt; found, Some(((3, Some(Tenths(20))), (4, Some(Tenths(23))))));
    Ok(())
}

/// Two sessions read in turn, while the publisher goes on; then the first learns what the second
/// has seen, by a receipt.
fn in_turn<R: Wait>(
    rt: &R,
    alloc: Global,
    publisher: &mut Publisher,
    one: Option<Session>,
    other: Option<Session>,
) -> Option<(Seen, Seen, Seen)>
    requires one { IfSome one (λ s. s.publisher ≡ publisher.old.publisher) }
    requires other { IfSome other (λ s. s.publisher ≡ publisher.old.publisher) }
    requires new { publisher.old.appended ≡ [] }
{
    let mut one = one?;
    let mut other = other?;
    append(alloc, publisher, &[21]).ok()?;
    publisher.publish(rt);
    let first = read(&mut one)?;
    append(alloc, publisher, &[22]).ok()?;
    publisher.publish(rt);
    let second = read(&mut other)?;
    one.sees_one_list(&other);
    publisher.shows_what_was_seen(&one);
    Some((first, second, read_all(publisher, &mut one)?))
}

#[test]
fn two_sessions_see_fronts_of_one_list(rt: HostRuntime) -> Result<(), Fail> {
    let alloc = rt.alloc();
    let sites = sites_of(alloc, 1, 0, &[("t1", "a", 0), ("t2", "b", 0)])?;
    let mut doors = Doors::new();
    let (mut publisher, one, other) = opened(&rt, alloc, &sites, &mut doors).ok_or("it opens")?;
    let found = in_turn(&rt, alloc, &mut publisher, one, other);
    publisher.end(&rt);
    let last = (2, Some(Tenths(22)));
    assert_eq!(rt; found, Some(((1, Some(Tenths(21))), last, last)));
    Ok(())
}

/// Nothing is published, twice. What the receipt counts, what is pending, and what is read.
fn nothing<R: Wait>(
    rt: &R,
    publisher: &mut Publisher,
    session: Option<Session>,
) -> Option<(u64, u64, Seen)>
    requires { IfSome session (λ s. s.publisher ≡ publisher.old.publisher) }
{
    let mut session = session?;
    publisher.publish(rt);
    publisher.publish(rt);
    let receipt = publisher.receipt();
    let count = receipt.count();
    session.learn(receipt);
    Some((count, publisher.pending(), read(&mut session)?))
}

#[test]
fn publishing_nothing(rt: HostRuntime) -> Result<(), Fail> {
    let alloc = rt.alloc();
    let sites = sites_of(alloc, 1, 0, &[("t1", "a", 0)])?;
    let mut doors = Doors::new();
    let (mut publisher, session, _) = opened(&rt, alloc, &sites, &mut doors).ok_or("it opens")?;
    let found = nothing(&rt, &mut publisher, session);
    publisher.end(&rt);
    assert_eq!(rt; found, Some((0, 0, (0, None))));
    Ok(())
}

/// A session that has read one entry.
fn read_once<R: Wait>(
    rt: &R,
    alloc: Global,
    publisher: &mut Publisher,
    session: Option<Session>,
) -> Option<Session>
    requires { publisher.old.appended ≡ [] }
{
    let mut session = session?;
    append(alloc, publisher, &[21]).ok()?;
    publisher.publish(rt);
    read(&mut session)?;
    Some(session)
}

#[test]
fn session_is_shut_out_after_the_end(rt: HostRuntime) -> Result<(), Fail> {
    let alloc = rt.alloc();
    let sites = sites_of(alloc, 1, 0, &[("t1", "a", 0)])?;
    let mut doors = Doors::new();
    let (mut publisher, session, _) = opened(&rt, alloc, &sites, &mut doors).ok_or("it opens")?;
    let found = read_once(&rt, alloc, &mut publisher, session);
    publisher.end(&rt);
    let mut session = found.ok_or("it reads")?;
    assert!(rt; read(&mut session).is_none());
    assert_eq!(rt; (session.shut(), session.last().front), (1, 1));
    Ok(())
}

#[test]
fn sites_without_an_area(rt: HostRuntime) -> Result<(), Fail> {
    let alloc = rt.alloc();
    let sites = sites_of(alloc, 1, 0, &[])?;
    let mut doors = Doors::new();
    let (mut publisher, last, _) = opened(&rt, alloc, &sites, &mut doors).ok_or("it opens")?;
    let appended = append(alloc, &mut publisher, &[21]);
    publisher.publish(&rt);
    let count = publisher.receipt().count();
    publisher.end(&rt);
    assert!(rt; last.is_none());
    assert_eq!(rt; (appended, count, doors.refused()), (Ok(()), 1, 0));
    Ok(())
}
