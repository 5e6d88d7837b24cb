//! How long the texts of a hardened design are.
//!
//! The layers above may rely on this: the flat text of a hardened design and the text of its
//! certificate each have at most 128 times the bytes of the original's flat text. For a copy's line is
//! charged to its node, and a voter's line to a pin that reads the voted net.
#![tactic(auto)]

ghost use Rattle.flat_net.specs.Net.{Net, IsValid};
ghost use Rattle.hardened_size.specs.Size.{FlatTextKeepsLimit, HardenedTextsAreShort, HardenedTextsKeepLimits};

/// The law: each text of a hardened form has at most 128 times the bytes of the original's flat text,
/// whatever the version, the size of partitions and the pins that are voted.
pub fn hardened_texts_are_short()
    ensures short { (n : Net) → IsValid n → HardenedTextsAreShort n }
    // Where the original's flat text keeps the limit of an original file, both keep that of a hardened one.
    ensures within { (n : Net) → IsValid n → HardenedTextsKeepLimits n }
    // It does so where the original was flattened within that limit.
    ensures original { (n : Net) → IsValid n → FlatTextKeepsLimit n }
{}
