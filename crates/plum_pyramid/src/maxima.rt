//! The greatest of what stations say: of a run, and at a place.

ghost use Rattle.std.specs.Prelude.{◌≡◌, ◌<◌, ◌≤◌, length, All, IfSome};
ghost use Rattle.plum_base.specs.Sites.{IsPlace};
ghost use Rattle.plum_geo.specs.Corrected.{IsOnCorrectedScale};
ghost use Rattle.plum_geo.specs.Prediction.{AreOnScale};
ghost use Rattle.plum_pyramid.specs.Maxima.{said, said_at, CanSay, IsGreatest};

use crate::layout::Member;
use plum_base::{Point, Tenths};
use plum_geo::{greater_of, less, near};

/// What a station says: its value less its factor.
fn said(member: &Member, values: &[Option<Tenths>]) -> Option<Tenths>
    requires can { CanSay values.now member.now }
    requires scale { AreOnScale values.now }
    ensures value { result ≡ said values.now member.now }
    ensures range { IfSome result IsOnCorrectedScale }
{
    match values[member.number.0 as usize] {
        None => None,
        Some(value) => Some(less(value, &member.site)),
    }
}

/// What it says at a place: nothing where it is not near.
fn said_at(member: &Member, values: &[Option<Tenths>], place: Point) -> Option<Tenths>
    requires can { CanSay values.now member.now }
    requires scale { AreOnScale values.now }
    requires place { IsPlace place }
    ensures value { result ≡ said_at values.now place member.now }
    ensures range { IfSome result IsOnCorrectedScale }
{
    if near(member.site.at, place) {
        said(member, values)
    } else {
        None
    }
}

/// The greatest of what a run of stations says.
pub fn greatest_said(
    members: &[Member],
    values: &[Option<Tenths>],
    first: usize,
    end: usize,
) -> Option<Tenths>
    requires can { All (CanSay values.now) members.now }
    requires scale { AreOnScale values.now }
    requires run { first ≤ end }
    requires bound { end ≤ length members.now }
    ensures greatest { IsGreatest (said values.now) members.now first end result }
    ensures range { IfSome result IsOnCorrectedScale }
{
    let mut greatest = None;
    for p in first..end {
        greatest = greater_of(greatest, said(&members[p], values));
    }
    greatest
}

/// The greatest of what a run of stations says at a place.
pub fn greatest_said_at(
    members: &[Member],
    values: &[Option<Tenths>],
    place: Point,
    first: usize,
    end: usize,
) -> Option<Tenths>
    requires can { All (CanSay values.now) members.now }
    requires scale { AreOnScale values.now }
    requires place { IsPlace place }
    requires run { first ≤ end }
    requires bound { end ≤ length members.now }
    ensures greatest { IsGreatest (said_at values.now place) members.now first end result }
    ensures range { IfSome result IsOnCorrectedScale }
{
    let mut greatest = None;
    for p in first..end {
        greatest = greater_of(greatest, said_at(&members[p], values, place));
    }
    greatest
}
