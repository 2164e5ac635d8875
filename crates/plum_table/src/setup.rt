//! The walk through the keys of a setup file.

ghost use Rattle.std.specs.Prelude.{◌≡◌, IfOk, IfErr, Ok, Err};
ghost use Rattle.toml.specs.View.{table_view};
ghost use Rattle.plum_base.specs.Setup.{IsGain};
ghost use Rattle.plum_table.specs.Setup.{gain_of, setup_in, setup_of, fields_of, IsStatedFault};

use crate::fault::{Field, SetupFault, SetupKey, TableFault};
use crate::kinds;
use crate::levels::read_levels;
use crate::rules::read_rules;
use crate::stages::read_cascade;
use plum_base::{GAIN_G, GAIN_H, Gain, LANES, QUEUE, Setup};
use std::alloc::Global;
use toml::Table;

/// The gain.
fn read_gain(gain: &Table) -> Result<Gain, SetupFault>
    ensures value { result ≡ gain_of (table_view gain.now) }
    ensures range { IfOk result (λ gain. IsGain gain.g gain.h) }
{
    let g = kinds::natural(gain, SetupKey::of(Field::GainG), GAIN_G)?;
    let h = kinds::natural(gain, SetupKey::of(Field::GainH), GAIN_H)? as u8;
    Ok(Gain { g, h })
}

/// The setup that a file states.
fn walk(file: &Table) -> Result<Setup, SetupFault>
    ensures ok { IfOk result (λ s. setup_in (table_view file.now) ≡ Ok (fields_of s)) }
    ensures fault { IfErr result (λ fault. setup_in (table_view file.now) ≡ Err fault) }
{
    let lanes = kinds::natural(file, SetupKey::of(Field::Lanes), LANES)? as u16;
    let queue = kinds::natural(file, SetupKey::of(Field::Queue), QUEUE)?;
    let gain = read_gain(kinds::table(file, SetupKey::of(Field::Gain))?)?;
    let cascade = read_cascade(file)?;
    let levels = read_levels(kinds::table(file, SetupKey::of(Field::Levels))?)?;
    let rules = read_rules(kinds::table(file, SetupKey::of(Field::Rules))?)?;
    Ok(Setup {
        cascade,
        gain,
        levels,
        rules,
        lanes,
        queue,
    })
}

/// The setup that the bytes of a file state, or its first fault.
#[tactic(auto, using(crate::proofs::Documents::of_document, crate::proofs::Documents::of_others))]
pub fn read_setup(alloc: Global, bytes: &[u8]) -> Result<Setup, TableFault>
    ensures ok { IfOk result (λ s. setup_of bytes.now ≡ Ok (fields_of s)) }
    ensures fault { IfErr result (IsStatedFault (setup_of bytes.now)) }
{
    let file = match toml::table_from_slice(alloc, bytes) {
        Ok(file) => file,
        Err(e) if e.is_memory() => return Err(TableFault::NoMemory),
        Err(_) => return Err(TableFault::Setup(SetupFault::NotToml)),
    };
    match walk(&file) {
        Ok(setup) => Ok(setup),
        Err(fault) => Err(TableFault::Setup(fault)),
    }
}
