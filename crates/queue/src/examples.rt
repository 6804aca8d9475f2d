// The definitions by examples in numbers.
ghost use Rattle.queue.specs.Examples.{RingsAreRead, CallsAreRead};

// What waits in a ring of three slots, and what the calls do to it.
pub fn examples()
    ensures rings { RingsAreRead }
    ensures calls { CallsAreRead }
{}
