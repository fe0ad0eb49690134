// Rows `seconds`: the time left of a token.
use capi::menhotrac_seconds_left;
use scan::Groups;
use std::io;
use std::io::Write;

#[derive(Clone, Copy, Debug, PartialEq, Eq)]
pub struct Row {
    expiry: i64,
    now: i64,
    margin: u32,
}

impl Row {
    // What follows the word; `None` where it is not understood.
    pub fn read(text: &[u8]) -> Option<Row> {
        let mut groups = Groups::new(text);
        let mut items = groups.next()?.items();
        let row = Row {
            expiry: items.number()?,
            now: items.number()?,
            margin: items.number()?,
        };
        let is_whole = items.next().is_none() && groups.next().is_none();
        is_whole.then_some(row)
    }

    pub fn answer<W: Write>(&self, out: &mut W) -> io::Result<()> {
        let mut seconds = 0;
        let refusal = menhotrac_seconds_left(self.expiry, self.now, self.margin, &mut seconds);
        writeln!(out, "seconds {refusal} {seconds}")
    }
}
