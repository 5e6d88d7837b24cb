//! Why a schedule file is refused.

/// The first fault of a schedule file.
#[derive(Clone, Copy, Debug, PartialEq, Eq, Drop)]
pub enum ScheduleFault {
    /// The bytes are no TOML document.
    NotToml,
    /// There is another key, or `inputs` is missing, or the value of a key is no array.
    Top,
    /// There are too many rows or upsets.
    TooMany,
    /// This row of inputs is no text of one `0` or `1` per input.
    Row(u32),
    /// This upset is no table with exactly the three keys and their values.
    Entry(u32),
    /// This upset names no net of the hardened design, or an input where inputs are not upset.
    UnknownNet(u32),
    /// This upset's cycle has no row.
    Range(u32),
    /// An earlier upset has the cycle and net of this one.
    Doubled(u32),
    /// The start values are no text of one `0` or `1` per register that begins with a free value.
    Start,
    /// There was no memory.
    Memory,
}
