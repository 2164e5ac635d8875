//! The pyramid of maxima: the greatest value less factor near a place, at the cost of the disc's
//! edge alone.
//!
//! It promises the greatest value less factor of the near stations that report, by the value that
//! each was last set to, and it takes no memory once it is made. It must not know where values come
//! from, nor what a target is.
#![tactic(auto)]

mod curve;
mod layout;
mod maxima;
mod planting;
mod pyramid;
mod renewing;
mod searching;

pub use pyramid::Pyramid;
