//! The bytes of a line from its kind and its fields, on the stack.

ghost use Rattle.std.specs.Prelude.{◌≡◌, ◌+◌, ◌≤◌, ◌++◌, length, map, All};
ghost use Rattle.arrayvec.specs.ArrayVec.{array_vec_len};
ghost use Rattle.plum_text.specs.Fields.{line};
ghost use Rattle.plum_text.specs.Spelled.{field_text, IsShort};

use arrayvec::ArrayVec;
use itoa::Buffer;
use plum_base::{Class, Tenths};
use plum_scale::{class_text, text_of};

/// The bytes of the longest kind, `drill`.
pub const LONGEST_KIND: usize = 5;

/// The most fields that a line has.
pub const MOST_FIELDS: usize = 7;

/// The bytes of the longest field, a number of 64 bits.
const LONGEST_FIELD: usize = 20;

/// Room for a line of such a kind and such fields: each behind a space, and a line feed at the end.
const LONGEST: usize = LONGEST_KIND + MOST_FIELDS * (1 + LONGEST_FIELD) + 1;

/// The bytes of a line.
pub type Spelled = ArrayVec<u8, LONGEST>;

/// A field of a line.
#[derive(Clone, Copy)]
pub enum Field<'a> {
    Number(u64),
    Text(&'a [u8]),
    /// A value, or `-`.
    Value(Option<Tenths>),
    /// A class, or `-`.
    Class(Option<Class>),
}

/// Appends bytes for which there is room.
fn put(spelled: &mut Spelled, bytes: &[u8])
    requires { array_vec_len spelled.old + length bytes.now ≤ LONGEST }
    ensures { spelled.new.items ≡ spelled.old.items ++ bytes.now }
{
    spelled.try_extend_from_slice(bytes).unwrap();
}

/// Appends a field.
fn put_field(spelled: &mut Spelled, field: Field<'_>)
    requires short { IsShort field }
    requires room { array_vec_len spelled.old + LONGEST_FIELD ≤ LONGEST }
    ensures text { spelled.new.items ≡ spelled.old.items ++ field_text field.entry }
    ensures room { array_vec_len spelled.new ≤ array_vec_len spelled.old + LONGEST_FIELD }
{
    match field {
        Field::Number(n) => put(spelled, Buffer::new().format(n).as_bytes()),
        Field::Text(text) => put(spelled, text),
        Field::Value(Some(value)) => put(spelled, text_of(value).as_str().as_bytes()),
        Field::Class(Some(class)) => put(spelled, class_text(class).as_bytes()),
        Field::Value(None) | Field::Class(None) => put(spelled, b"-"),
    }
}

/// The bytes of a line: its kind, each field behind one space, and a line feed.
pub fn spell(kind: &[u8], list: &[Field<'_>]) -> Spelled
    requires kind { length kind.now ≤ LONGEST_KIND }
    requires few { length list.now ≤ MOST_FIELDS }
    requires short { All IsShort list.now }
    ensures { result.items ≡ line kind.now (map field_text list.now) }
{
    let mut spelled = ArrayVec::new();
    put(&mut spelled, kind);
    for field in list {
        put(&mut spelled, b" ");
        put_field(&mut spelled, *field);
    }
    put(&mut spelled, b"\n");
    spelled
}
