// The definitions by examples in numbers.
ghost use Rattle.report.specs.Examples.{TextsAreRead, TextsHaveEveryHeight, SolutionsAreRead};

// What is printed of two cells, and what solving one cell came to.
pub fn examples()
    ensures texts { TextsAreRead }
    ensures heights { TextsHaveEveryHeight }
    ensures solutions { SolutionsAreRead }
{}
