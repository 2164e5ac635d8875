//! The classes of the JMA scale, and the texts of classes and of intensities.
//!
//! It promises the class of each intensity, texts that tell one class or one intensity, and that
//! the text of a class is read back as that class. It must not know what a line is.
#![tactic(auto)]

mod class;
mod laws;
mod tenths;

pub use class::{class_of, class_read, class_text};
pub use laws::{classes_rise_with_intensities, texts_are_distinct};
pub use tenths::text_of;
