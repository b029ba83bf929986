// The kinds of lines: of a sheet, of a score, and that of a refusal.

// The first byte of a line, by what the line tells.
#[derive(Clone, Copy)]
pub enum Kind {
    Grammar = 0x47,
    Division = 0x44,
    Leaf = 0x4C,
    Playing = 0x45,
    BarLine = 0x42,
    Onset = 0x4E,
    ScoreHead = 0x54,
    ScoreLeaf = 0x53,
    Refused = 0x52,
}
