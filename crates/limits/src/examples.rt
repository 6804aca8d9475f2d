// The definitions by examples.
ghost use Rattle.limits.specs.Examples.{TextsOfRefusals, ChecksAreRead};

// What refusals print, and what checks come to.
pub fn examples()
    ensures texts { TextsOfRefusals }
    ensures checks { ChecksAreRead }
{}
