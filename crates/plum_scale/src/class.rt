//! The classes of the JMA scale.

ghost use Rattle.std.specs.Prelude.{◌≡◌, Some, IfSome};
ghost use Rattle.plum_base.specs.declared.rules.Class.{Class};
ghost use Rattle.plum_scale.specs.Classes.{class_of, class_text, class_named};

use plum_base::{Class, Tenths};

/// The class of an intensity.
pub fn class_of(t: Tenths) -> Class
    ensures { result ≡ class_of t }
{
    match t.0 {
        ..5 => Class::C0,
        5..15 => Class::C1,
        15..25 => Class::C2,
        25..35 => Class::C3,
        35..45 => Class::C4,
        45..50 => Class::C5Lower,
        50..55 => Class::C5Upper,
        55..60 => Class::C6Lower,
        60..65 => Class::C6Upper,
        _ => Class::C7,
    }
}

/// The text of a class.
pub fn class_text(class: Class) -> &'static str
    ensures { result.now ≡ class_text class }
{
    match class {
        Class::C0 => "0",
        Class::C1 => "1",
        Class::C2 => "2",
        Class::C3 => "3",
        Class::C4 => "4",
        Class::C5Lower => "5-",
        Class::C5Upper => "5+",
        Class::C6Lower => "6-",
        Class::C6Upper => "6+",
        Class::C7 => "7",
    }
}

/// The class that has this text.
pub fn class_read(text: &[u8]) -> Option<Class>
    ensures named { result ≡ class_named text.now }
    ensures some { IfSome result (λ c. class_text c ≡ text.now) }

    // None exactly where no class has it; and the text of a class is read as that class.
    ensures every { (c : Class) → class_text c ≡ text.now → result ≡ Some c }
{
    match text {
        b"0" => Some(Class::C0),
        b"1" => Some(Class::C1),
        b"2" => Some(Class::C2),
        b"3" => Some(Class::C3),
        b"4" => Some(Class::C4),
        b"5-" => Some(Class::C5Lower),
        b"5+" => Some(Class::C5Upper),
        b"6-" => Some(Class::C6Lower),
        b"6+" => Some(Class::C6Upper),
        b"7" => Some(Class::C7),
        _ => None,
    }
}
