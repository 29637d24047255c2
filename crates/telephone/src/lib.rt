// What the places of a report mean, for a display: telephone references character by character (ISO 14819-1 clause 5.5.16).
#![tactic(auto)]

pub mod place;
mod sign;

// Fields that the kind does not have are 0.
#[repr(C)]
#[derive(Clone, Copy, Debug, Default, PartialEq, Eq)]
pub struct Meaning {
    // 0 nothing, 1 an item of labels 0 to 14, 2 a telephone reference begins, 3 a character, 4 options follow, 5 letters or numbers follow,
    // 6 the number ends, 7 a cost, 8 a currency. The caller is C, so it is a number.
    pub kind: u8,
    pub sublabel: u8,
    // In ASCII: what is shown, and the key to dial, 0 for space and dash.
    pub character: u8,
    pub dialled: u8,
    // The time unit of the cost.
    pub unit: u8,
    pub multiplier: u8,
    pub cost: u16,
    pub position: u8,
    pub currency: u8,
}
