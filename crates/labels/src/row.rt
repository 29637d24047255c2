// The one table: how wide a value follows a label or a code, and what is due after it.
ghost use Rattle.std.specs.Prelude.{◌≡◌, ◌≤◌, Some};
ghost use Rattle.labels.specs.Rows.{row_count, by_sublabel, by_time_unit, by_value, code_width_at, width, next, stage_at, rows_of};

use crate::rules::{Edition, Rules};
use crate::stage::Stage;

// All rows: 16 labels, 16 number codes, 32 letter codes, cost, currency.
pub const ROWS: u16 = 66;

// The rows of the older edition: labels 0 to 14.
const OLDER_ROWS: u16 = 15;

// Bits of a label, and the label that a sub-label follows.
pub const LABEL_WIDTH: usize = 4;

pub const SUBLABELLED: u16 = 15;

// Codes of Table 2: letters follow, option numbers follow, and the end of the number.
const LETTERS_FOLLOW: u16 = 16 + 13;

const NUMBER_END: u16 = 16 + 15;

// Codes of Table 3: numbers follow, option letters, option numbers follow, and the end of the number.
const NUMBERS_FOLLOW: u16 = 32;

const OPTION_NUMBERS: u16 = 32 + 30;

const LETTERS_END: u16 = 32 + 31;

// The first row of letter codes, and the values that have no code.
const LETTERS: u16 = 32;

const COST: u16 = 64;

const CURRENCY: u16 = 65;

// How many rows an edition has.
pub fn rows_of(rules: Rules) -> u16
    ensures { (result ≡ rows_of rules) × (result ≤ row_count) }
{
    match rules.edition {
        Edition::Older => OLDER_ROWS,
        Edition::Newer => ROWS,
    }
}

// The bits of the codes of a stage, by the number of its first row; those of a label for a number that is no stage's.
pub fn code_width(stage: u16) -> usize
    ensures { (result ≡ code_width_at stage) × (result ≤ 5) }
{
    match stage {
        LETTERS => 5,
        COST | CURRENCY => 0,
        _ => 4,
    }
}

// The bits of a row's value: of label 15 the sub-label; of the end of a number the time unit; multiplier and cost, position and currency; of
// other codes none.
#[tactic(auto, using(crate::proofs::Table::width_is))]
pub fn width_of(row: u16) -> usize
    ensures { (result ≡ width row) × (result ≤ 16) }
{
    match row {
        0..=1 => 3,
        2..=4 => 5,
        5..=8 => 8,
        9 => 11,
        10..=13 => 16,
        SUBLABELLED => 6,
        NUMBER_END | LETTERS_END => 3,
        COST => 16,
        CURRENCY => 9,
        _ => 0,
    }
}

// What is due after a row and its value; nothing after a sub-label that is not defined.
#[tactic(auto, using(crate::proofs::Table::next_is))]
pub fn next_stage(row: u16, value: u16) -> Option<Stage>
    ensures { result ≡ next row value }
{
    match row {
        SUBLABELLED => after_sublabel(value),
        LETTERS_FOLLOW => Some(Stage::Letters),
        NUMBERS_FOLLOW | OPTION_NUMBERS => Some(Stage::Numbers),
        NUMBER_END | LETTERS_END => Some(after_time_unit(value)),
        COST => Some(Stage::Currency),
        CURRENCY => Some(Stage::Labels),
        // After any other row its stage stays, and past the last row a label is due.
        _ => Some(Stage::of_row(row).unwrap_or(Stage::Labels)),
    }
}

// A telephone number follows the sub-labels that are defined.
fn after_sublabel(value: u16) -> Option<Stage>
    ensures { result ≡ by_value by_sublabel value }
{
    match value {
        1 | 2 => Some(Stage::Numbers),
        _ => None,
    }
}

// A cost follows the time unit, but not of a free call or one of variable cost.
fn after_time_unit(value: u16) -> Stage
    ensures { Some result ≡ by_value by_time_unit value }
{
    match value {
        0 | 6 => Stage::Labels,
        _ => Stage::Cost,
    }
}

// The first row of the stage that a row belongs to; past the last row the row itself.
pub fn stage_of(row: u16) -> u16
    ensures { result ≡ stage_at row }
{
    match row {
        0..=15 => 0,
        16..=31 => 16,
        32..=63 => LETTERS,
        _ => row,
    }
}
