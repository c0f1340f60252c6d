//! Lists of numbers.

ghost use Rattle.std.specs.Prelude.{◌≡◌, ◌==◌};
ghost use Rattle.std.specs.List.{list_any};

use std::marker::Model;

/// A list of numbers: the numbers of calls that fail, or by how much a device goes on at each turn.
#[derive(Drop)]
pub struct Counts {
    numbers: Vec<u64>,
}

impl Model for Counts {
    ghost use Rattle.std.specs.Prelude.{ℕ, List};

    ghost Value = { List ℕ };

    ghost view = { λ c. c.numbers.items };
}

impl Counts {
    /// The numbers of a list.
    pub fn of(numbers: Vec<u64>) -> Counts
        ensures { result ≡ numbers.items }
    {
        Counts { numbers }
    }

    /// The numbers in their order.
    pub fn numbers(&self) -> &[u64]
        ensures { result.now ≡ self.now }
    {
        self.numbers.as_slice()
    }

    /// Whether a number is one of them.
    pub fn holds(&self, number: u64) -> bool
        ensures { result ≡ list_any (λ n. n == number) self.now }
    {
        self.numbers.contains(&number)
    }
}

#[cfg(test)]
mod tests {
    use super::*;
    use std::test::Fail;

    #[test]
    fn numbers_of_a_list(rt: HostRuntime) -> Result<(), Fail> {
        let counts = Counts::of(vec![in rt.alloc(); 3, 1, 4]?);
        for (number, want) in [(3, true), (4, true), (0, false), (2, false)] {
            assert_eq!(rt; counts.holds(number), want, "{number}");
        }
        assert_eq!(rt; counts.numbers(), [3, 1, 4].as_slice());
        Ok(())
    }
}
