//! A list of numbers, read from its front.
ghost use Rattle.std.specs.Prelude.{◌≡◌, ◌≤◌, ◌++◌, length};

use std::marker::Model;

/// The numbers that are still to be read. A contract sees the list.
#[derive(Drop)]
pub struct Section<'n> {
    left: &'n [i64],
}

impl<'n> Model for Section<'n> {
    ghost use Rattle.std.specs.Prelude.{List, ℤ};

    ghost Value = { List ℤ };

    ghost view = { λ s. s.left.now };
}

impl<'n> Section<'n> {
    pub fn new(numbers: &'n [i64]) -> Self
        ensures { result ≡ numbers.now }
    {
        Section { left: numbers }
    }

    /// The next numbers, which are read with this.
    pub fn take<const N: usize>(&mut self) -> [i64; N]
        requires { N ≤ length self.old }
        ensures numbers { self.old ≡ result ++ self.new }
        ensures count { length result ≡ N }
    {
        let (head, tail) = self.left.split_at(N);
        let mut numbers = [0i64; N];
        numbers.copy_from_slice(head);
        self.left = tail;
        numbers
    }
}
