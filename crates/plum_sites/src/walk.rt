//! The walk over the records of a site file, whatever its sites are.

ghost use Rattle.std.specs.Prelude.{◌≡◌, ◌↔◌, ◌^◌, ◌≤◌, ℕ, nat_lt, true, List, [], ◌∷◌, ◌++◌};
ghost use Rattle.std.specs.Prelude.{length, map, IsTrue, IfOk, IfErr, OnOk};
ghost use Rattle.std.specs.List.{AllZip};
ghost use Rattle.csv.specs.Records.{fields_of};
ghost use Rattle.plum_sites.specs.declared.fault.SiteFault.{SiteFault};
ghost use Rattle.plum_sites.specs.Files.{IfFault, HasRowFault, StateSites, HasFault};
ghost use Rattle.plum_sites.specs.Files.{AreSitesOf, IsFaultOf};

use crate::fault::{SiteFault, SitesRefusal};
use crate::records::first_records;
use csv::ByteRecord;
use std::alloc::Global;

/// A kind of file: its header, what its rows state, and the sites of the rows so far.
pub trait SiteRows: Drop {
    /// What a row states.
    type Site;

    /// The most sites of a file.
    ghost MOST: { ℕ };

    const MOST: u16;

    /// The columns.
    ghost header: { List (List ℕ) };

    /// Whether a row states a site.
    ghost states: { List (List ℕ) → Self.Site → Type 0 };

    /// Whether sites may stand in one file.
    ghost are_lawful: { List Self.Site → Type 0 };

    /// What is wrong first with the row of a number, behind rows that state the sites before.
    ghost is_first_fault: { List Self.Site → List (List ℕ) → ℕ → SiteFault → Type 0 };

    /// The sites so far.
    ghost sites: { Self → List Self.Site };

    /// What holds before and after each row.
    ghost is_sound: { Self → Type 0 };

    /// No rows.
    fn new(alloc: Global) -> Self
        ensures sound { is_sound result }
        ensures sites { sites result ≡ [] };

    /// Whether a row is the header.
    fn is_header(row: &ByteRecord) -> bool
        ensures { IsTrue result ↔ (fields_of row.now ≡ header) };

    /// Adds the site of the row of that number, or answers what is wrong first with the row.
    fn add(&mut self, row: &ByteRecord, number: u32) -> Result<(), SitesRefusal>
        requires { is_sound self.old }
        ensures sound { OnOk result (is_sound self.new) }
        ensures site { OnOk result ((site : Self.Site) × states (fields_of row.now) site
            × (sites self.new ≡ sites self.old ++ site ∷ [])) }
        ensures fault { IfErr result (λ e. IfFault e
            (is_first_fault (sites self.old) (fields_of row.now) number)) };

    ghost sound_is_lawful: { (rows : Self) → is_sound rows → are_lawful (sites rows) };

    ghost lawful_is_few: { (xs : List Self.Site) → are_lawful xs → length xs ≤ MOST };

    ghost most_fits: { nat_lt MOST (2 ^ 16) ≡ true };
}

/// The sites of the rows below the header.
fn sites_below<S: SiteRows>(alloc: Global, rows: &[ByteRecord]) -> Result<S, SitesRefusal>
    ensures sites { IfOk result (λ s. AllZip S.states (map fields_of rows.now) (S.sites s)
        × S.are_lawful (S.sites s)) }
    ensures fault { IfErr result (λ e. IfFault e (HasRowFault S.states S.are_lawful
        S.is_first_fault (map fields_of rows.now))) }
{
    let mut sites = S::new(alloc);
    for (i, row) in rows.iter().enumerate() {
        // The header is row 1.
        sites.add(row, i as u32 + 2)?;
    }
    Ok(sites)
}

/// The sites that the records of a file state.
fn sites_of<S: SiteRows>(alloc: Global, records: &[ByteRecord]) -> Result<S, SitesRefusal>
    ensures sites { IfOk result (λ s. StateSites S.header S.states S.are_lawful
        (map fields_of records.now) (S.sites s)) }
    ensures fault { IfErr result (λ e. IfFault e (HasFault S.header S.states S.are_lawful
        S.is_first_fault (map fields_of records.now))) }
{
    match records {
        [header, rows @ ..] if S::is_header(header) => sites_below(alloc, rows),
        _ => Err(SitesRefusal::Sites(SiteFault::Header)),
    }
}

/// The sites that the bytes of a file state, or what is wrong first with them.
pub fn read_sites<S: SiteRows>(alloc: Global, bytes: &[u8]) -> Result<S, SitesRefusal>
    ensures sites { IfOk result (λ s. AreSitesOf S.header S.states S.are_lawful bytes.now
        (S.sites s)) }
    ensures fault { IfErr result (λ e. IfFault e (IsFaultOf S.header S.states S.are_lawful
        S.is_first_fault bytes.now)) }
{
    // The header, and a row more than there may be.
    let records = first_records(alloc, bytes, usize::from(S::MOST) + 2)?;
    sites_of(alloc, records.as_slice())
}
