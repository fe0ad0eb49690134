// The groups of a row, and their items.
ghost use Rattle.std.specs.Prelude.{◌≡◌, ◌+◌, Some, length, option_map, unwrap_or};
ghost use Rattle.std.specs.Iterator.{at_most};

use crate::{BLANK, split_word};

const SEMICOLON: u8 = b';';

// The groups in what is left of a row, which is `None` after the last group.
#[derive(Debug, Drop)]
pub struct Groups<'a>(Option<&'a [u8]>);

// What stands between two `;` of a row.
#[derive(Clone, Copy, Debug, PartialEq, Eq)]
pub struct Group<'a>(&'a [u8]);

// The items in what is left of a group, each of which has a byte at least.
#[derive(Debug, Drop)]
pub struct Items<'a>(&'a [u8]);

impl<'a> Groups<'a> {
    // The groups of what follows a word: one more than there are `;`.
    pub fn new(row: &'a [u8]) -> Groups<'a>
        ensures { result.0 ≡ Some row.entry }
    {
        Groups(Some(row))
    }
}

impl<'a> Iterator for Groups<'a> {
    type Item = Group<'a>;

    ghost remaining = { λ groups. at_most (unwrap_or (option_map (λ row. length row.now + 1) groups.0) 0) };

    fn next(&mut self) -> Option<Group<'a>> {
        let row = self.0.take()?;
        let Some(end) = row.iter().position(|byte| *byte == SEMICOLON) else {
            return Some(Group(row));
        };
        self.0 = Some(&row[end + 1..]);
        Some(Group(&row[..end]))
    }
}

impl<'a> Group<'a> {
    pub fn items(self) -> Items<'a>
        ensures { result.0 ≡ self.entry.0 }
    {
        Items(self.0)
    }
}

impl<'a> Iterator for Items<'a> {
    type Item = &'a [u8];

    ghost remaining = { λ items. at_most (length items.0.now) };

    fn next(&mut self) -> Option<&'a [u8]> {
        let from = self.0.iter().position(|byte| *byte != BLANK)?;
        let (item, rest) = split_word(&self.0[from..]);
        self.0 = rest;
        Some(item)
    }
}
