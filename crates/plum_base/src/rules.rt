//! The classes of the JMA scale, alerts, and the rules that make them.

/// A class of the JMA scale, from the weakest.
#[derive(Clone, Copy, Debug, PartialEq, Eq, PartialOrd, Ord)]
pub enum Class {
    C0,
    C1,
    C2,
    C3,
    C4,
    C5Lower,
    C5Upper,
    C6Lower,
    C6Upper,
    C7,
}

/// When an alert is raised and cancelled: the classes, and after how many calm readings in a row.
#[derive(Clone, Copy, Debug, PartialEq, Eq)]
pub struct Rules {
    pub raise: Class,
    pub cancel: Class,
    pub calm: u16,
}

/// What a desk tells of its area.
#[derive(Clone, Copy, Debug, PartialEq, Eq)]
pub enum Alert {
    /// An alert stands from now on, at this class.
    Raise(Class),
    /// The alert that stands rises to this class.
    Upgrade(Class),
    /// No alert stands from now on.
    Cancel,
}
