// How much a reading counts.
ghost use Rattle.std.specs.Prelude.{◌≡◌, ◌<◌, ◌≤◌};
ghost use Rattle.limits.specs.Limits.{most_class};
ghost use Rattle.price.specs.Weights.{class_weight, most_weight};

use limits::MAX_CLASS;

/// The weight of a trust class: 0, 1, 3, 6, 10 and so on. A class above the greatest weighs nothing.
pub fn class_weight(class: u8) -> u32
    ensures known { class ≤ most_class → result ≡ class_weight class }
    ensures unknown { most_class < class → result ≡ 0 }
    ensures small { result ≤ most_weight }
{
    if class > MAX_CLASS {
        return 0;
    }
    let class = u32::from(class);
    class * (class + 1) / 2
}
