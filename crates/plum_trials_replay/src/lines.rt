//! What is expected of the worked rows.

/// What a replay may write: this journal, and one of these outputs.
pub struct Texts {
    pub journal: &'static str,
    pub outputs: &'static [&'static str],
}

pub const THIRTY_SAMPLES: Texts = Texts {
    journal: "E 1 1 1 0 0 F -
E 2 1 1 0 1 C 2.1
",
    outputs: &[
        "M 1 2 2 0 0
R 1 a 2
P 1 t1 2.1 2
T 0
Z 1 2 2 0 0
",
    ],
};

pub const EVERY_FAULT: Texts = Texts {
    journal: "E 1 1 1 0 0 F -
E 2 1 1 0 1 C -
",
    outputs: &[
        "M 1 11 2 0 9
X 2 P1
X 3 P1
X 4 P3 9
X 5 P2
X 6 P4 128
X 7 P5 7
X 8 P6 0
X 9 P6 201
X 10 P7 26 27
R 1 a 2
P 1 t1 - -
T 0
Z 1 11 2 0 9
",
    ],
};

pub const TAIL_OF_TWELVE: Texts = Texts {
    journal: "E 1 1 1 0 0 F -
",
    outputs: &[
        "M 1 1 1 0 0
R 1 a 1
P 1 t1 - -
T 12
Z 1 1 1 0 0
",
    ],
};

/// The reading for the first mark has seen the packet behind it, or has not.
pub const MARK_BETWEEN: Texts = Texts {
    journal: "E 1 1 1 0 0 F -
E 2 2 1 0 1 C 2.1
",
    outputs: &[
        "M 1 1 1 0 0
R 1 a 1
P 1 t1 - -
M 2 1 1 0 0
R 2 a 2
P 2 t1 2.1 2
T 0
Z 2 2 2 0 0
",
        "M 1 1 1 0 0
R 1 a 2
P 1 t1 2.1 2
M 2 1 1 0 0
R 2 a 2
P 2 t1 2.1 2
T 0
Z 2 2 2 0 0
",
    ],
};

/// The same of two stations: the reading for the first mark has seen none, one or both of the
/// packets behind it.
pub const MARK_BETWEEN_TWO: [&str; 3] = [
    "M 1 2 2 0 0
R 1 a 2
P 1 t1 - -
M 2 2 2 0 0
R 2 a 4
P 2 t1 2.1 2
T 0
Z 2 4 4 0 0
",
    "M 1 2 2 0 0
R 1 a 3
P 1 t1 2.1 2
M 2 2 2 0 0
R 2 a 4
P 2 t1 2.1 2
T 0
Z 2 4 4 0 0
",
    "M 1 2 2 0 0
R 1 a 4
P 1 t1 2.1 2
M 2 2 2 0 0
R 2 a 4
P 2 t1 2.1 2
T 0
Z 2 4 4 0 0
",
];

/// One segment, with fifty packets of each of two stations.
pub const FIFTY_OF_EACH: &str = "M 1 100 100 0 0
R 1 a 100
P 1 t1 2.1 2
T 0
Z 1 100 100 0 0
";

/// A packet in the first of two segments and two in the second, all published within the round
/// over the second but for the last, which may be.
pub const TWO_BEHIND_A_MARK: [&str; 2] = [
    "M 1 1 1 0 0
R 1 a 2
P 1 t1 - -
M 2 2 2 0 0
R 2 a 3
P 2 t1 - -
T 0
Z 2 3 3 0 0
",
    "M 1 1 1 0 0
R 1 a 3
P 1 t1 - -
M 2 2 2 0 0
R 2 a 3
P 2 t1 - -
T 0
Z 2 3 3 0 0
",
];
