//! Names of targets and areas.

ghost use Rattle.std.specs.Prelude.{◌≡◌, ◌↔◌, IsTrue, IsSome, IfSome};
ghost use Rattle.plum_base.specs.Name.{IsNameByte, IsName};

use arrayvec::ArrayVec;
use std::marker::Model;

/// The most bytes of a name.
pub const LONGEST_NAME: usize = 16;

/// A name: 1 to 16 bytes, each a letter, a digit or `_`. Contracts see the list of its bytes.
#[derive(Debug, Drop, PartialEq, Eq)]
pub struct Name {
    bytes: ArrayVec<u8, LONGEST_NAME>,
}

impl Model for Name {
    ghost use Rattle.std.specs.Prelude.{List, ℕ};
    ghost use Rattle.plum_base.specs.Name.{IsName};

    ghost Value = { List ℕ };

    ghost view = { λ n. n.bytes.items };

    ghost invariant = { λ n. IsName n.bytes.items };

    ghost inverse = { λ bytes. record { bytes = record { items = bytes } } };
}

fn is_name_byte(byte: u8) -> bool
    ensures { IsTrue result ↔ IsNameByte byte }
{
    byte.is_ascii_alphanumeric() || byte == b'_'
}

impl Name {
    /// The name that the bytes are, where they are one.
    pub fn read(bytes: &[u8]) -> Option<Name>
        ensures name { IsSome result ↔ IsName bytes.now }
        ensures value { IfSome result (λ n. n ≡ bytes.now) }
    {
        if bytes.is_empty() || !bytes.iter().all(|b| is_name_byte(*b)) {
            return None;
        }
        let mut copy = ArrayVec::new();
        copy.try_extend_from_slice(bytes).ok()?;
        Some(Name { bytes: copy })
    }

    /// An equal name.
    pub fn copy(&self) -> Name
        ensures { result ≡ self.now }
    {
        let Some(copy) = Name::read(self.as_slice()) else {
            // The bytes of a name are one.
            unreachable!()
        };
        copy
    }

    /// The bytes of the name.
    pub fn as_slice(&self) -> &[u8]
        ensures value { result.now ≡ self.now }
        ensures name { IsName self.now }
    {
        self.bytes.as_slice()
    }
}
