// What is due in content: a label, a code of a telephone number, or a value that has no code.
ghost use Rattle.std.specs.Prelude.{◌≡◌, ◌≤◌, ◌<◌};
ghost use Rattle.labels.specs.Rows.{first_row, row_count, code_width, stage_of};

// Each stage, with its first row: a code is counted from it.
#[derive(Clone, Copy, Debug, PartialEq, Eq)]
pub enum Stage {
    Labels = 0,
    Numbers = 16,
    Letters = 32,
    Cost = 64,
    Currency = 65,
}

impl Stage {
    // The row of its code 0.
    pub fn first_row(self) -> u16
        ensures { (result ≡ first_row self) × (result < row_count) }
    {
        self as u16
    }

    // The bits of its codes.
    pub fn code_width(self) -> usize
        ensures { (result ≡ code_width self) × (result ≤ 5) }
    {
        match self {
            Stage::Labels | Stage::Numbers => 4,
            Stage::Letters => 5,
            Stage::Cost | Stage::Currency => 0,
        }
    }

    // The stage that a row belongs to; none past the last row.
    pub fn of_row(row: u16) -> Option<Self>
        ensures { result ≡ stage_of row }
    {
        match row {
            0..=15 => Some(Stage::Labels),
            16..=31 => Some(Stage::Numbers),
            32..=63 => Some(Stage::Letters),
            64 => Some(Stage::Cost),
            65 => Some(Stage::Currency),
            _ => None,
        }
    }
}
