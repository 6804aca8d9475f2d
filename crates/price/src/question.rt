// What a rule is asked.
ghost use Rattle.std.specs.Prelude.{◌≤◌};
ghost use Rattle.limits.specs.Limits.{most_top, most_class};

// A height for a reading of a class, all within the bounds of the product.
#[derive(Clone, Copy)]
pub struct Question {
    pub reading: u16,
    pub class: u8,
    pub height: u16,
    ghost reading_bounded: { reading ≤ most_top },
    ghost class_bounded: { class ≤ most_class },
    ghost height_bounded: { height ≤ most_top },
}
