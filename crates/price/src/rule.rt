// What a price rule is asked.
ghost use Rattle.std.specs.Prelude.{◌≡◌};
ghost use Rattle.price.specs.Rules.{Rule, Lawful, priced, stepped};

// By the rules of the product any numbers are answered, and 0 where they are out of range, which an energy adds as it is:
// so the numbers come plain, and there is no `Option`.
pub trait PriceRule {
    // The rule that the value stands for.
    ghost rule: { Self → Rule };

    // The greatest level that the rule is made for.
    fn greatest(&self) -> u16
        ensures { result ≡ (rule self.now).greatest };

    // The price of a height, and 0 for a question outside the rule's ranges.
    fn price(&self, reading: u16, class: u8, height: u16) -> u32
        ensures { result ≡ priced (rule self.now) reading class height };

    // What the next height costs more than this one, and 0 for a question outside the rule's ranges.
    fn step(&self, reading: u16, class: u8, height: u16) -> i32
        ensures { result ≡ stepped (rule self.now) reading class height };

    // It keeps the laws of price rules.
    ghost lawful: { (s : Self) → Lawful (rule s) };
}
