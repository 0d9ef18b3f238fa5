//! The names by which rows tell why an event is refused.
use std::alloc::Global;
use wu_rows::NoAnswer;
use wu_tree::Refusal;

const NAMES: [(&str, Refusal); 7] = [
    ("badname", Refusal::BadName),
    ("nosuch", Refusal::NoSuch),
    ("kind", Refusal::Kind),
    ("exists", Refusal::Exists),
    ("notempty", Refusal::NotEmpty),
    ("loop", Refusal::Loop),
    ("deep", Refusal::Deep),
];

/// The text of the refusal of this name.
pub fn text(alloc: Global, name: &str) -> Result<String, NoAnswer> {
    for (other, refusal) in NAMES {
        if other == name {
            return Ok(format!(in alloc; "{refusal}")?);
        }
    }
    Err(NoAnswer::BadRow)
}

/// The name of the refusal.
pub fn name_of(refusal: Refusal) -> &'static str {
    for (name, other) in NAMES {
        if other == refusal {
            return name;
        }
    }
    "other"
}
