// The widths of the values of labels 0 to 14.
ghost use Rattle.std.specs.Prelude.{◌≡◌, ◌≤◌};
ghost use Rattle.content.specs.Widths.{width};

// The bits of a label's value, 0 where no item has the label.
#[tactic(auto, unfolding(crate::specs::Widths::width, crate::specs::Widths::widths))]
pub fn width_of(label: u16) -> usize
    ensures { (result ≡ width label) × (result ≤ 16) }
{
    match label {
        0 | 1 => 3,
        2 | 3 | 4 => 5,
        5 | 6 | 7 | 8 => 8,
        9 => 11,
        10 | 11 | 12 | 13 => 16,
        _ => 0,
    }
}
