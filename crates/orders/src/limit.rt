// A head's limit: the number of slots within which its turn has to come, 1 to 14.
ghost use Rattle.std.specs.Prelude.{◌≡◌, ◌≤◌};
ghost use Rattle.std.specs.Option.{option_map};
ghost use Rattle.orders.specs.Limits.{checked_limit};

#[derive(Clone, Copy, Debug, PartialEq, Eq)]
pub struct Limit {
    value: u8,
    ghost range: { (1 ≤ value) × (value ≤ 14) },
}

impl Limit {
    // The limit of this value, or None if the value is not one of 1 to 14, as the `new` of std's numbers that are not 0.
    pub fn new(value: u8) -> Option<Limit>
        ensures { option_map (λ l. l.value) result ≡ checked_limit value }
    {
        if !(1..=14).contains(&value) {
            return None;
        }
        Some(Limit { value })
    }

    pub fn value(self) -> u8
        ensures { result ≡ self.value }
    {
        self.value
    }
}
